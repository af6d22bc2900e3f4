//! The judge of a run, which says in a trace what it refused tables for.

ghost use Rattle.std.specs.Prelude.{◌≡◌};
ghost use Rattle.flow_table.specs.View.{plains};
ghost use Rattle.net_guard.specs.Judging.{is_allowed};

use flow_table::{Judge, TableView};
use net_guard::ChosenJudge;
use std::alloc::Global;
use trace_words::RefusalWords;
use trace_world::Aside;

/// The judge that an operator chose. What it refuses tables for is told in the trace, where there is one.
#[derive(Drop)]
pub(crate) struct ToldJudge<'a> {
    /// Where the words are made.
    pub(crate) alloc: Global,
    /// Which tables may stand.
    pub(crate) judge: &'a ChosenJudge,
    /// Where the words are left.
    pub(crate) aside: Option<Aside>,
}

/// Leaves the line of a refusal to be told before the next act, where memory is there for it.
fn tell(alloc: Global, judge: &ChosenJudge, tables: &[TableView], aside: &Aside) {
    let Some(refusal) = judge.refusal(tables) else {
        return;
    };
    let words = RefusalWords {
        alloc,
        refusal,
        tables,
    };
    if let Ok(line) = format!(in alloc; "judge refuses: {words}\n") {
        aside.leave(line);
    }
}

impl Judge for ToldJudge<'_> {
    ghost use Rattle.net_guard.specs.Judging.{is_allowed};

    ghost accepts = { λ told tables. is_allowed told.judge.now tables };

    fn allows(&self, tables: &[TableView]) -> bool
        ensures { result ≡ is_allowed self.now.judge.now (plains tables.now) }
    {
        let is_allowed = self.judge.allows(tables);
        if let Some(aside) = &self.aside {
            if !is_allowed {
                tell(self.alloc, self.judge, tables, aside);
            }
        }
        is_allowed
    }
}
