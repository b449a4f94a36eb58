//! The reduction `least`: the lesser of two elements, from `inf`.

ghost use Rattle.std.specs.Prelude.{◌≡◌, length};
ghost use Rattle.sj_codelet.specs.Equations.{vector, lowest, all_inf};

use crate::sum::INF;

/// `y(i)` becomes the lesser of `y(i)` and `x(i)`. Linear in `y`.
pub fn lowest(x: &[i64], y: &mut [i64])
    requires { length x.now ≡ length y.old }
    ensures { y.new ≡ (lowest (vector x.now) (vector y.old)).elements }
{
    for i in 0..y.len() {
        y[i] = y[i].min(x[i]);
    }
}

/// Each element becomes `inf`. Linear in `x`.
pub fn init_least(x: &mut [i64])
    ensures { x.new ≡ (all_inf (vector x.old).dims).elements }
{
    for i in 0..x.len() {
        x[i] = INF;
    }
}
