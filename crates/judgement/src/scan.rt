// The scan of a case file: what has been read, and the judgement of the record that is next.
ghost use Rattle.std.specs.Prelude.{◌≡◌, ◌+◌, ◌≤◌, ◌<◌, length, List, ℕ, OnErr};
ghost use Rattle.judgement.specs.Scan.{start, size as scan_size, end as scan_end, judge_record, Consistent};
ghost use Rattle.judgement.specs.Listed.{listed};
ghost use Rattle.judgement.specs.View.{view_scan, view_judged, goes_on, ended, JudgesLine};

use crate::numbers::Number;
use crate::offsets::Offsets;
use crate::refusal::{Refusal, Rule};
use records::Kind;

// The offset of the next record, the size (0 before it is read), and the offsets of the fragments and events.
#[derive(Clone, Copy)]
pub struct Scan {
    pub at: usize,
    pub n: usize,
    pub window: u32,
    pub fragments: Offsets,
    pub events: Offsets,
}

// A fragment or an event, which stands at an offset: after the size, and not one too many. Its offset is kept.
fn judge_line(n: usize, lines: &mut Offsets, at: usize) -> Result<(), Refusal>
    requires { (length (listed lines.old) ≤ n) × (n ≤ 64) }
    ensures { JudgesLine n at (listed lines.old) result (listed lines.new) }
{
    // Before the size there is room for none.
    if lines.len() == n {
        let rule = if n == 0 { Rule::Order } else { Rule::Count };
        return Err(rule.at(at));
    }
    lines.push(at);
    Ok(())
}

impl Scan {
    // Before the first record.
    pub fn start() -> Self
        ensures { view_scan result ≡ start }
    {
        Scan {
            at: 0,
            n: 0,
            window: 0,
            fragments: Offsets::new(),
            events: Offsets::new(),
        }
    }

    // The same, of a scan that was made before: its places need no clearing.
    pub(crate) fn restart(&mut self)
        ensures { view_scan self.new ≡ start }
    {
        self.at = 0;
        self.n = 0;
        self.window = 0;
        self.fragments.clear();
        self.events.clear();
    }

    // A size record: first, and only once; n from 1 to 64, a window of at most 1,000,000,000.
    fn judge_size(&mut self, file: &[u8]) -> Result<(), Refusal>
        requires { Consistent file.now (view_scan self.old) × (self.old.at + 7 ≤ length file.now) }
        ensures judged { goes_on result self.new ≡ scan_size file.now (view_scan self.old) }
        ensures refused { OnErr result (self.new ≡ self.old) }
    {
        if self.n != 0 {
            return Err(Rule::Order.at(self.at));
        }
        let n = u16::read(file, self.at + 1);
        let window = u32::read(file, self.at + 3);
        if n == 0 || 64 < n || 1_000_000_000 < window {
            return Err(Rule::Range.at(self.at));
        }
        self.at += 7;
        self.n = usize::from(n);
        self.window = window;
        Ok(())
    }

    // The end: not first, not too early, and nothing after it.
    fn judge_end(&self, file: &[u8]) -> Result<(), Refusal>
        requires { self.now.at + 1 ≤ length file.now }
        ensures { ended result self.now ≡ scan_end file.now (view_scan self.now) }
    {
        if self.n == 0 {
            return Err(Rule::Order.at(self.at));
        }
        if self.fragments.len() != self.n || self.events.len() != self.n {
            return Err(Rule::Count.at(self.at));
        }
        if self.at + 1 != file.len() {
            return Err(Rule::Behind.at(self.at + 1));
        }
        Ok(())
    }

    // The record that is next: it is read, and its kind is given; or refused.
    pub(crate) fn judge_record(&mut self, file: &[u8]) -> Result<Kind, Refusal>
        requires { Consistent file.now (view_scan self.old) }
        ensures judged { view_judged result self.new ≡ judge_record file.now (view_scan self.old) }
        ensures consistent { Consistent file.now (view_scan self.new) }
    {
        let at = self.at;
        // A `match`, since the proof does not close over a `map_err` that adds the offset.
        let kind = match records::find_kind(file, at) {
            Ok(kind) => kind,
            Err(missing) => return Err(Rule::from(missing).at(at)),
        };
        match kind {
            Kind::Size => self.judge_size(file)?,
            Kind::Fragment => {
                judge_line(self.n, &mut self.fragments, at)?;
                self.at = at + 9;
            }
            Kind::Event => {
                judge_line(self.n, &mut self.events, at)?;
                self.at = at + 7;
            }
            Kind::End => self.judge_end(file)?,
        }
        Ok(kind)
    }
}
