ghost use Rattle.std.specs.Prelude.{◌≡◌};
ghost use Rattle.sheet.specs.Told.{channels_of};

use crate::channel_list::ChannelList;

impl ChannelList {
    /// The listed channels in order.
    pub fn as_slice(&self) -> &[u8]
        ensures { result.now ≡ channels_of self.now }
    {
        &self.channels[0..self.count as usize]
    }
}
