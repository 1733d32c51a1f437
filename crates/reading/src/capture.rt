ghost use Rattle.std.specs.Prelude.{◌+◌, ◌^◌, ◌<◌};

/// A capture of a logic analyser: its first sample, how many samples it has, and the levels of the lines.
/// In every capture first plus samples is below 2^32; one outside that bound cannot be made.
#[derive(Clone, Copy, PartialEq, Eq, Debug)]
pub struct Capture {
    pub first: u32,
    pub samples: u16,
    pub levels: u16,
    ghost bound: { first + samples < 2 ^ 32 },
}
