ghost use Rattle.std.specs.Prelude.{◌≡◌};
ghost use Rattle.cqp_book.specs.Meaning.{Meaning};
ghost use Rattle.cqp_book.specs.Run.{MayAdvance};
ghost use Rattle.cqp_book.specs.Laws.{IsLawful};

/// A machine, whose state is a front and cells under keys, and which events move on.
///
/// Code holds the front. The cells are known to contracts alone.
pub trait Machine {
    /// What a run begins from.
    type Opening;

    /// What code keeps beside the events.
    type Front: Drop;

    /// What contracts know under a key.
    type Cell;

    /// What a run consists of.
    type Event: Drop;

    // What the machine means: what contracts and the laws speak of.
    ghost means: { Meaning Self.Opening Self.Front Self.Cell Self.Event };

    /// Makes the front that of after the event.
    fn advance(front: &mut Self::Front, event: &Self::Event)
        requires { MayAdvance means front.old event.now }
        ensures { front.new ≡ means.next front.old event.now };

    // The three laws, which each machine proves.
    ghost lawful: { IsLawful means };
}
