// Architectures (machine.h), and the entry of a universal file's table that is looked for.
ghost use Rattle.std.specs.Prelude.{◌≡◌, Bool};
ghost use Rattle.universal.specs.Architecture.{is_arch, is_abi64, first_arch, chosen};
ghost use Rattle.universal.specs.declared.fat.Part.{Part};

use crate::fat::{Part, Table, arch_at};

// machine.h: the bit of a 64-bit cputype; the lowest of a cpusubtype's capability bits (CPU_SUBTYPE_MASK, the top byte).
const CPU_ARCH_ABI64: u64 = 0x0100_0000;

const CPU_SUBTYPE_CAPABILITY: u64 = 0x0100_0000;

// machine.h: as a wanted cpusubtype, any.
pub const CPU_SUBTYPE_ANY: u64 = 0xFFFF_FFFF;

// arm64
pub const CPU_TYPE_ARM64: u64 = 0x0100_000C;

pub const CPU_SUBTYPE_ARM64_ALL: u64 = 0;

#[derive(Clone, Copy)]
pub struct Arch {
    pub cputype: u64,
    pub cpusubtype: u64,
}

// Whether a part is of an architecture: of its cputype, and of its cpusubtype, if it is not any, without the capability bits.
#[tactic(auto, using(std::proofs::lemmas::Bool::Decides::nat_tests), unfolding(crate::specs::Architecture::is_arch))]
pub(crate) fn is_arch(a: Arch, p: Part) -> bool
    ensures { result ≡ is_arch a p }
{
    if p.cputype != a.cputype {
        return false;
    }
    if a.cpusubtype == CPU_SUBTYPE_ANY {
        return true;
    }
    p.cpusubtype % CPU_SUBTYPE_CAPABILITY == a.cpusubtype % CPU_SUBTYPE_CAPABILITY
}

// Whether a part is of a 64-bit architecture.
#[tactic(auto, unfolding(crate::specs::Architecture::is_abi64))]
fn is_abi64(p: Part) -> bool
    ensures { result ≡ is_abi64 p }
{
    p.cputype / CPU_ARCH_ABI64 % 2 == 1
}

// The first entry of a table that passes a test.
fn first_arch<F: Fn(Part) -> bool>(table: Table, passes: F) -> Option<u64>
    requires { F.IsAlwaysCallable passes }
    ensures { (test : Part → Bool) → ((p : Part) (r : Bool) → F.post passes p r → r ≡ test p)
        → result ≡ first_arch table.entry.file.now table.entry.kind test table.entry.count 0 }
{
    // Not `find`: its closure would need clauses written out, that the entry is one of the table's and that the test can be called.
    for i in 0..table.count {
        if passes(arch_at(table, i)) {
            return Some(i);
        }
    }
    None
}

// The entry that is wanted: of an architecture; or arm64, without it the first 64-bit one.
pub(crate) fn chosen(table: Table, wanted: Option<Arch>) -> Option<u64>
    ensures { result ≡ chosen table.entry.file.now table.entry.kind table.entry.count wanted }
{
    match wanted {
        Some(a) => first_arch(table, |p| is_arch(a, p)),
        None => {
            let arm64 = Arch {
                cputype: CPU_TYPE_ARM64,
                cpusubtype: CPU_SUBTYPE_ARM64_ALL,
            };
            let first = first_arch(table, |p| is_arch(arm64, p));
            // Not `or_else`: its closure would need the search's two clauses written out.
            match first {
                None => first_arch(table, is_abi64),
                Some(_) => first,
            }
        }
    }
}
