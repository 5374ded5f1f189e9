// How failures of the system are counted.
ghost use Rattle.std.specs.Prelude.{◌≡◌, ◌≤◌, IfOk, OnOk, OnErr, IsTrue, IsErrOf, None, Some, false, is_err};
ghost use Rattle.disk_model.specs.Cause.{Rose, AtMostOnce};
ghost use Rattle.disk_model.specs.Answer.{is_failure, done_answer, listing_answer};

use disk_model::{Failed, FileFault, ListFault};
use std::io;
use std::io::ErrorKind;

// One failure more. The greatest count stays.
pub(crate) fn raise(faults: &mut u64)
    ensures later { faults.old ≤ faults.new }
    ensures rose { Rose faults.old faults.new }
    ensures once { AtMostOnce faults.old faults.new }
{
    *faults = faults.saturating_add(1);
}

// What the system answered. A failure is counted.
pub(crate) fn counted<T: Drop>(faults: &mut u64, answer: io::Result<T>) -> Result<T, Failed>
    ensures later { faults.old ≤ faults.new }
    ensures value { IfOk result (λ value. answer ≡ Ok value) }
    ensures same { is_err result ≡ is_err answer }
    ensures kept { OnOk result (faults.new ≡ faults.old) }
    ensures cause { OnErr result (Rose faults.old faults.new) }
    ensures once { OnErr result (AtMostOnce faults.old faults.new) }
{
    match answer {
        Ok(value) => Ok(value),
        Err(_) => {
            raise(faults);
            Err(Failed)
        }
    }
}

// What the system answered of one file, `None` where there is no such file.
pub(crate) fn counted_file<T: Drop>(
    faults: &mut u64,
    answer: io::Result<Option<T>>,
) -> Result<T, FileFault>
    ensures later { faults.old ≤ faults.new }
    ensures value { IfOk result (λ value. answer ≡ Ok (Some value)) }
    ensures missing { IsErrOf result FileFault.Missing → answer ≡ Ok None }
    ensures same { is_failure (done_answer result) ≡ is_err answer }
    ensures kept { is_failure (done_answer result) ≡ false → faults.new ≡ faults.old }
    ensures cause { IsTrue (is_failure (done_answer result)) → Rose faults.old faults.new }
    ensures once { IsTrue (is_failure (done_answer result)) → AtMostOnce faults.old faults.new }
{
    match answer {
        Ok(Some(value)) => Ok(value),
        Ok(None) => Err(FileFault::Missing),
        Err(_) => {
            raise(faults);
            Err(FileFault::Failed)
        }
    }
}

// What the system answered of a whole folder. Want of memory is not counted.
pub(crate) fn counted_listing<T: Drop>(
    faults: &mut u64,
    answer: io::Result<T>,
) -> Result<T, ListFault>
    ensures later { faults.old ≤ faults.new }
    ensures value { IfOk result (λ value. answer ≡ Ok value) }
    ensures same { is_err result ≡ is_err answer }
    ensures kept { is_failure (listing_answer result) ≡ false → faults.new ≡ faults.old }
    ensures cause { IsTrue (is_failure (listing_answer result)) → Rose faults.old faults.new }
    ensures once { IsTrue (is_failure (listing_answer result)) → AtMostOnce faults.old faults.new }
{
    match answer {
        Ok(value) => Ok(value),
        Err(error) if is_memory(&error) => Err(ListFault::Memory),
        Err(_) => {
            raise(faults);
            Err(ListFault::Failed)
        }
    }
}

// Whether memory was refused, and not by the system to a call.
pub(crate) fn is_memory(error: &io::Error) -> bool {
    error.kind() == ErrorKind::OutOfMemory && error.raw_os_error().is_none()
}
