ghost use Rattle.std.specs.Prelude.{◌≤◌};

/// The channels that a picture lists: at most seven, since a sheet counts them in three bits. (A buffer of its own with
/// its length, since the list is `Copy`, which the library's vector of fixed room is not.)
#[derive(Clone, Copy)]
pub struct ChannelList {
    pub(crate) count: u8,
    pub(crate) channels: [u8; 7],
    ghost few: { count ≤ 7 },
}
