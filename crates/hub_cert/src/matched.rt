//! Lists that are made value by value.
ghost use Rattle.std.specs.Prelude.{◌<◌, ℕ, IfOk};
ghost use Rattle.hub_cert.specs.Matched.{AreMade};

use std::alloc::{AllocError, Global};

/// Makes that many values, each from its number. The first error ends it.
pub fn make_each<T: Drop, F: Fn(usize) -> Result<T, AllocError>>(
    alloc: Global,
    count: usize,
    make: F,
) -> Result<Vec<T>, AllocError>
    requires { (k : ℕ) → k < count → F.pre make k }
    ensures { IfOk result (λ v. AreMade (F.post make) v.items count) }
{
    let mut made = Vec::new(alloc);
    for number in 0..count {
        made.push(make(number)?)?;
    }
    Ok(made)
}
