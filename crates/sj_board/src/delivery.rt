//! Deliver tasks.

ghost use Rattle.std.specs.Prelude.{◌≡◌};
ghost use Rattle.sj_board.specs.Delivery.{is_delivery as hands_over};

use sj_base::program::Codelet;
use sj_codelet::kernel::Kernel;

/// Whether a codelet hands its operand over. Constant time.
pub fn is_delivery(codelet: Codelet) -> bool
    ensures { result ≡ hands_over codelet }
{
    matches!(Kernel::of(codelet), Some(Kernel::Deliver))
}
