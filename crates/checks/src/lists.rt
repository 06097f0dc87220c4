// Causes 6 and 9 (01, "The call", the table): lists and operands, and the types in use. Every operand in use is tested,
// listed or not.
ghost use Rattle.std.specs.Prelude.{◌≡◌, ◌≤◌, leb, length};
ghost use Rattle.std.specs.List.{list_any};
ghost use Rattle.model.specs.Picture.{kind, form};
ghost use Rattle.model.specs.Refusal.{bad_list};
ghost use Rattle.inst.specs.Table.{packed};
ghost use Rattle.inst.specs.Shown.{shown};
ghost use Rattle.checks.specs.Causes.{bad_lists, bad_types};

use inst::record::Record;
use inst::table::Row;

// A list past the operands in use, or on a kind without one.
#[tactic(auto, using(crate::proofs::Looked::has_one, crate::proofs::Looked::has_none))]
pub fn bad_list(row: Row, rec: Record, opers: usize) -> bool
    requires { row.0 ≡ packed (kind (shown rec)) (form (shown rec)) }
    ensures { result ≡ bad_list opers (shown rec.entry) }
{
    let start = rec.list_start();
    let len = rec.list_len();
    if row.has_list() {
        return opers < start + len;
    }
    !((start == 0) & (len == 0))
}

// Is one of these words m or more?
pub fn any_from(xs: &[u32], m: usize) -> bool
    ensures { result ≡ list_any (λ x. leb m x) xs.now }
{
    xs.iter().any(|x| m <= *x as usize)
}

// 6: a record's list is bad, or an operand in use is no register.
#[tactic(auto, using(crate::proofs::Insts::any_is), unfolding(crate::specs::Causes::bad_lists))]
pub fn bad_lists(lists: bool, ops: &[u32], opers: u32, regs: u32) -> bool
    requires { opers ≤ length ops.now }
    ensures { result ≡ bad_lists lists ops.now opers regs }
{
    lists || any_from(&ops[..opers as usize], regs as usize)
}

// 9: a type in use above 7.
#[tactic(auto, using(crate::proofs::Insts::any_is), unfolding(crate::specs::Causes::bad_types))]
pub fn bad_types(types: &[u32], regs: u32) -> bool
    requires { regs ≤ length types.now }
    ensures { result ≡ bad_types types.now regs }
{
    any_from(&types[..regs as usize], 8)
}
