//! The count of faults.
ghost use Rattle.std.specs.Prelude.{◌≡◌, true};
ghost use Rattle.acdm_lines.specs.Counted.{faults_after};

// Counts one fault more, up to the count's greatest value.
pub(crate) fn count_fault(faults: &mut u64)
    ensures { faults.new ≡ faults_after true faults.old }
{
    *faults = faults.saturating_add(1);
}
