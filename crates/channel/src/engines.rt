// The two engines: what is worked of a sheet in each form, and what becomes of the verdict.
ghost use Rattle.std.specs.Prelude.{◌≡◌};
ghost use Rattle.channel.specs.Text.{with_verdict};
ghost use Rattle.channel.specs.Printing.{worked_in};

use both::{Both, Verdict};
use datum::Level;
use gauge::LevelFault;
use lines::Form;

// What is worked of a sheet: the worksheet's answer alone, or both engines.
pub fn worked(form: Form, sheet: &[u8], level: Result<Level, LevelFault>) -> Both
    ensures { result ≡ worked_in form sheet.now level }
{
    match form {
        Form::Alone => both::not_come(design::design_at(sheet, level)),
        Form::Both => both::design_both(sheet, level),
    }
}

// On how many sheets the two engines agreed, with one more.
pub fn with_verdict(agreed: u64, verdict: Verdict) -> u64
    ensures { result ≡ with_verdict agreed verdict }
{
    match verdict {
        Verdict::Agreed => record::one_more(agreed),
        Verdict::NotCome => agreed,
        Verdict::Differed => agreed,
    }
}

// Tells of a sheet on which the two engines differ.
pub fn tell(rt: HostRuntime, index: u64, verdict: Verdict) {
    if let Verdict::Differed = verdict {
        let _ = eprintln!(rt; "sheet {index}: the worksheet and the plain engine differ");
    }
}
