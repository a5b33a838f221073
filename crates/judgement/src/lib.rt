// The judgement of a case file, record after record. Only the crates of the case reader judge files, so a function may have a `requires`; of rules and refusals, which others name too, none has.
#![tactic(auto)]

ghost use Rattle.std.specs.Prelude.{◌≡◌};
ghost use Rattle.judgement.specs.Scan.{judged, Consistent};
ghost use Rattle.judgement.specs.View.{view_scan, ended};

use crate::refusal::Refusal;
use crate::scan::Scan;
use records::Kind;

pub mod numbers;
pub mod offsets;
pub mod refusal;
pub mod scan;

// What an accepted file says, or why it is refused. The caller lends the scan, whose lists would be copied on their way out of a Result; what it held does not matter.
pub fn judge_file(file: &[u8], scan: &mut Scan) -> Result<(), Refusal>
    ensures judged { ended result scan.new ≡ judged file.now }
    ensures consistent { Consistent file.now (view_scan scan.new) }
{
    scan.restart();
    loop {
        if let Kind::End = scan.judge_record(file)? {
            return Ok(());
        }
    }
}
