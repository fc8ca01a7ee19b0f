// The search for the first bad place, which all checks that go place by place make.
ghost use Rattle.model.specs.Refusals.{CallableBelow, FindsLowest};

// The lowest number below n that passes a test, if one does. One turn a number.
pub fn lowest<F: Fn(usize) -> bool>(n: usize, test: F) -> Option<usize>
    requires { CallableBelow n (F.pre test) }
    ensures { FindsLowest n (F.post test) result }
{
    for x in 0..n {
        if test(x) {
            return Some(x);
        }
    }
    None
}
