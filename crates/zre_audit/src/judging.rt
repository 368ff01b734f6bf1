//! Whether two journals agree.

ghost use Rattle.std.specs.Prelude.{◌≡◌, ◌↔◌, nat_eq, option_map, IfOk, List as Values};
ghost use Rattle.zre_outside.specs.declared.entry.Entry.{Entry};
ghost use Rattle.zre_values.specs.declared.settings.Settings.{Settings as Config};
ghost use Rattle.zre_audit.specs.Agreement.{Agree, Judges, judged};
ghost use Rattle.zre_audit.specs.Kept.{lines_of};
ghost use Rattle.zre_audit.specs.Prefixes.{first_short};
ghost use Rattle.zre_audit.specs.Told.{runs_in};
ghost use Rattle.zre_audit.specs.Watching.{Watches};
ghost use Rattle.zre_audit.specs.declared.verdicts.Verdict.TheVariants.{Yes, No};

use crate::excess::{Excess, first_excess};
use crate::verdicts::Verdict;
use crate::watch::Watch;
use zre_values::OutOfMemory;

// The first run of the one that is too many for the links of the other.
fn excess(heard: &Watch, put: &Watch) -> Result<Option<Excess>, OutOfMemory>
    ensures { IfOk result (λ found. option_map (λ e. (e.number, e.more, e.fewer)) found
        ≡ first_short nat_eq (runs_in heard.now.heard.runs put.now.id.0)
        (lines_of put.now.put.messages put.now.put.lines.items heard.now.id)) }
{
    let links = put.put.links(heard.id)?;
    first_excess(heard.alloc, heard.heard.runs(put.id), links.as_slice())
}

fn against(side: u8, excess: Excess) -> Verdict
    ensures { result ≡ No side excess.number excess.more excess.fewer }
{
    Verdict::No {
        side,
        run: excess.number,
        runs: excess.more,
        links: excess.fewer,
    }
}

/// Whether two nodes agree: what each heard in each run of the other is the beginning of what the other put on a link,
/// on another link for each run. It looks at runs and links in the order of what was said in them, so that it takes no
/// longer than to sort them.
pub fn verdict(a: &Watch, b: &Watch) -> Result<Verdict, OutOfMemory>
    ensures exact { (g k : Config) (J K : Values Entry) → Watches g J a.now → Watches k K b.now
        → IfOk result (λ v. v ≡ judged g k J K) }
    ensures judges { (g k : Config) (J K : Values Entry) → Watches g J a.now → Watches k K b.now
        → IfOk result (Judges g k J K) }
    ensures yes { (g k : Config) (J K : Values Entry) → Watches g J a.now → Watches k K b.now
        → IfOk result (λ v. (v ≡ Yes) ↔ Agree g k J K) }
{
    if let Some(first) = excess(a, b)? {
        return Ok(against(1, first));
    }
    if let Some(second) = excess(b, a)? {
        return Ok(against(2, second));
    }
    Ok(Verdict::Yes)
}
