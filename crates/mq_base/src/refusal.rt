ghost use Rattle.std.specs.Prelude.{◌≡◌, Option};

/// The first fault of a file: the number of the refusal and its two places, as docs/FORMATS.md lists them for each
/// kind of file. A place that a refusal does not carry is 0.
#[derive(Clone, Copy, Debug, PartialEq, Eq)]
pub struct Refusal {
    pub code: u16,
    pub at: u64,
    pub item: u64,
}

/// The error of a reader: the refusal of what it read, or want of memory, which has none.
pub trait Refusing: Drop {
    ghost use Rattle.mq_base.specs.declared.refusal.Refusal.{Refusal};

    /// The refusal, where the error is one.
    ghost told: { Self → Option Refusal };

    /// The refusal, and None for want of memory. It takes no memory.
    fn refusal(&self) -> Option<Refusal>
        ensures { result ≡ told self.now };
}
