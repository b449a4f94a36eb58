// The rule of the turn, and the kinds of step.
ghost use Rattle.sj_desk.specs.Views.{first_view, dealing, dealt, joined_seat, ended};
ghost use Rattle.sj_desk.specs.Turns.{FitsOpening, IsRuled, Tries, MarksWaiting, Leaves, Renews, Hears, Rings, Rests, FillsSlot, OpensDesk};

use crate::view::{Opening, View};
use atomic_table::{Join, Play, Seat, Shared, Split, TableRule};
use sj_base::keyed::Keyed;

/// Who may hold the turn, and what the value is while it is free.
pub struct TurnRule;

impl<T: Keyed> TableRule<Option<T>, View<T>, Opening<T>> for TurnRule {
    ghost holds = { λ k. IsRuled T.row_of (FitsOpening T.key T.sound) k };

    ghost first = { first_view };
}

/// A try for the turn.
pub struct Try;

impl<T: Keyed> Play<Option<T>, View<T>> for Try {
    ghost then = { λ st m r n. Tries T.row_of (FitsOpening T.key T.sound) m r n };
}

/// A mark, for the holder, that a seat waits.
pub struct MarkWaiting;

impl<T> Play<Option<T>, View<T>> for MarkWaiting {
    ghost then = { λ st m r n. MarksWaiting m r n };
}

/// The release of the turn.
pub struct Release;

impl<T> Play<Option<T>, View<T>> for Release {
    ghost then = { λ st m r n. Leaves m n };
}

/// A turn's end and the begin of the same seat's next one.
pub struct Renew;

impl<T> Play<Option<T>, View<T>> for Renew {
    ghost then = { λ st m r n. Renews m n };
}

/// A bell is heard.
pub struct Hear;

impl<T> Play<Option<T>, View<T>> for Hear {
    ghost then = { λ st m r n. Hears st.word m r n };
}

/// A bell is rung.
pub struct RingBell;

impl<T> Play<Option<T>, View<T>> for RingBell {
    ghost then = { λ st m r n. Rings st.word m n };
}

/// A look at a bell by a seat that rests.
pub struct Rest;

impl<T> Play<Option<T>, View<T>> for Rest {
    ghost then = { λ st m r n. Rests st.word m r n };
}

/// The first seat takes the empty slot.
pub struct Fill;

impl<T> Play<Option<T>, View<T>> for Fill {
    ghost then = { λ st m r n. FillsSlot m n };
}

/// The first seat gives the slot home, with the opening value.
pub struct Open;

impl<T> Play<Option<T>, View<T>> for Open {
    ghost then = { λ st m r n. OpensDesk m n };
}

/// One seat is dealt its row.
pub struct Deal;

impl<T> Split<View<T>> for Deal {
    ghost left = { dealing };

    ghost right = { dealt };
}

/// One seat answers for another's rows too.
pub struct Gather;

impl<T> Join<View<T>> for Gather {
    ghost both = { joined_seat };

    ghost spent = { ended };
}

/// The turn word, the bells' counts and the value's slot.
pub type Turn<T> = Shared<Option<T>, View<T>, Opening<T>, TurnRule>;

/// The right of one seat to step.
pub type Ticket<T> = Seat<Option<T>, View<T>>;
