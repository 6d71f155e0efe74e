//! The built-in functions by name (OpenCL C 1.2, sections 6.12.1 and 6.12.3).
ghost use Rattle.std.specs.Prelude.{◌≡◌};
ghost use Rattle.ocl_types.specs.Names.{builtin_named as builtin_named_of, entry_named, arithmetic_builtins};

use ocl_program::Builtin;

/// The built-in function with a name.
#[tactic(auto, unfolding(crate::specs::Names::builtin_named))]
pub fn builtin_named(name: &[u8]) -> Option<Builtin>
    ensures { result ≡ builtin_named_of name.now }
{
    if name == b"get_work_dim".as_slice() {
        return Some(Builtin::WorkDim);
    }
    if name == b"get_global_id".as_slice() {
        return Some(Builtin::GlobalId);
    }
    if name == b"get_local_id".as_slice() {
        return Some(Builtin::LocalId);
    }
    if name == b"get_group_id".as_slice() {
        return Some(Builtin::GroupId);
    }
    if name == b"get_global_size".as_slice() {
        return Some(Builtin::GlobalSize);
    }
    if name == b"get_local_size".as_slice() {
        return Some(Builtin::LocalSize);
    }
    if name == b"get_num_groups".as_slice() {
        return Some(Builtin::NumGroups);
    }
    if name == b"get_global_offset".as_slice() {
        return Some(Builtin::GlobalOffset);
    }
    arithmetic_named(name)
}

/// Those on numbers alone.
fn arithmetic_named(name: &[u8]) -> Option<Builtin>
    ensures { result ≡ entry_named name.now arithmetic_builtins }
{
    if name == b"min".as_slice() {
        return Some(Builtin::Min);
    }
    if name == b"max".as_slice() {
        return Some(Builtin::Max);
    }
    if name == b"clamp".as_slice() {
        return Some(Builtin::Clamp);
    }
    if name == b"abs".as_slice() {
        return Some(Builtin::Abs);
    }
    if name == b"mul_hi".as_slice() {
        return Some(Builtin::MulHi);
    }
    None
}
