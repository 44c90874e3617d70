//! Faults, by their numbers.

ghost use Rattle.std.specs.Prelude.{◌≡◌};
ghost use Rattle.marks.specs.declared.fault.FaultKind.{FaultKind as Kind};
ghost use Rattle.marks.specs.Kinds.{fault_number};
ghost use Rattle.reference_recorder_findings.specs.declared.finding.Finding.TheVariants as finding;

use marks::FaultKind;
use reference_recorder_findings::Finding;

// The kind with the number.
fn kind_of(number: u8) -> FaultKind
    ensures { (kind : Kind) → number ≡ fault_number kind → result ≡ kind }
{
    match number {
        1 => FaultKind::Divide,
        2 => FaultKind::Shift,
        3 => FaultKind::NotLive,
        4 => FaultKind::ReadOnly,
        5 => FaultKind::StackFull,
        _ => FaultKind::BadCall,
    }
}

/// The finding of the fault that has the number.
pub fn fault(number: u8) -> Finding
    ensures { (kind : Kind) → number ≡ fault_number kind → result ≡ finding.Fault kind }
{
    Finding::Fault(kind_of(number))
}
