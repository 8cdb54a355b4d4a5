ghost use Rattle.std.specs.Prelude.{◌≡◌, ◌≤◌, ◌*◌, ◌^◌, cond, nat_lt};

/// Returns 1 if a number is lower than another, else 0. The difference tells it.
pub fn lower(a: u16, b: u16) -> usize
    ensures lower { result ≡ cond (nat_lt a b) 1 0 }
    ensures few { result ≤ 1 }
{
    (usize::from(b) + 65535 - usize::from(a)) / 65536
}

/// The step of a search that makes three tests at once, which do not wait for one another: returns `many` times how many pass.
pub fn passed_of_three(many: usize, passes: usize) -> usize
    requires three { passes ≤ 3 }
    requires small { many ≤ 2 ^ 61 }
    ensures passed { result ≡ many * passes }
    ensures few { result ≤ many * 3 }
{
    many * passes
}
