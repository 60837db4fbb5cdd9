//! A script and a plan that are read without a run.
#![tactic(auto)]

use crate::reads::{plan_fault, plan_in, script_fault};
use crate::tells::plan_name;
use sc_mistakes::explain_script;
use sc_misuse::explain_plan;
use sc_plan::{Plan, PlanFault};
use sc_script::ScriptFault;
use sc_story::{
    ScriptText, job_places, lined_plan, script_text, write_crowded, write_hopeless, write_unread,
};
use sc_value::{Name, Octets};
use sc_words::Command;
use std::alloc::{AllocError, Global};

/// What a check came to.
#[derive(Clone, Copy)]
pub enum CheckFinding {
    /// Nothing is wrong.
    Whole,
    /// The words are no command.
    Usage,
    /// The script has a fault.
    Script(ScriptFault),
    /// The plan has a fault.
    Plan(PlanFault),
}

/// What a check came to, and what is told of it.
#[derive(Drop)]
pub enum Checked {
    /// All was read.
    Read {
        /// What it came to.
        finding: CheckFinding,
        /// What helps.
        text: String,
    },
    /// A file can't be read.
    Unread {
        /// Its name.
        name: Name,
        /// Whether it isn't there.
        missing: bool,
        /// What helps.
        advice: &'static str,
    },
}

/// What a check looks at.
#[derive(Clone, Copy)]
pub(crate) struct Checking<'a> {
    pub(crate) command: &'a Command,
    /// The script.
    pub(crate) script: &'a Octets,
    /// For each node of it how many lines it reads, where that is known.
    pub(crate) sizes: &'a [Option<u64>],
}

impl Checking<'_> {
    /// What is found of the script, and of a plan.
    pub(crate) fn finish(
        self,
        alloc: Global,
        plan: Option<&Octets>,
    ) -> Result<Checked, AllocError> {
        if let Some(fault) = script_fault(alloc, self.script)? {
            let name = self.command.script.as_str();
            let text = explain_script(alloc, name, self.script, fault)?;
            let finding = CheckFinding::Script(fault);
            return Ok(Checked::Read { finding, text });
        }
        match plan {
            Some(bytes) => self.check_plan(alloc, bytes),
            None => self.check_whole(alloc, None),
        }
    }

    /// What is found of a plan, where the script has no fault.
    fn check_plan(self, alloc: Global, plan: &Octets) -> Result<Checked, AllocError> {
        let executors = self.command.limits.executors;
        match plan_fault(alloc, plan, executors)? {
            Some(fault) => {
                let text = explain_plan(alloc, plan_name(self.command), plan, executors, fault)?;
                let finding = CheckFinding::Plan(fault);
                Ok(Checked::Read { finding, text })
            }
            None => self.check_whole(alloc, Some(plan)),
        }
    }

    /// What is found where neither has a fault.
    fn check_whole(self, alloc: Global, plan: Option<&Octets>) -> Result<Checked, AllocError> {
        let text = self.text_of_whole(alloc, plan)?;
        let finding = CheckFinding::Whole;
        Ok(Checked::Read { finding, text })
    }

    /// What is told of a script and a plan without a fault.
    fn text_of_whole(self, alloc: Global, plan: Option<&Octets>) -> Result<String, AllocError> {
        let mut out = String::new(alloc);
        self.write_whole(alloc, &mut out, plan)?;
        if out.is_empty() {
            out.push_str("  no fault was found\n")?;
        }
        Ok(out)
    }

    /// Writes which definitions no action reads, which make many partitions of few rows, and which
    /// lines of the plan can't come due.
    fn write_whole(
        self,
        alloc: Global,
        out: &mut String,
        plan: Option<&Octets>,
    ) -> Result<(), AllocError> {
        let Some(text) = script_text(alloc, self.script)? else {
            return Ok(());
        };
        let done = self.write_text(alloc, out, &text, plan);
        drop(text);
        done
    }

    /// The same of a script whose lines are known.
    fn write_text(
        self,
        alloc: Global,
        out: &mut String,
        text: &ScriptText,
        plan: Option<&Octets>,
    ) -> Result<(), AllocError> {
        write_unread(alloc, out, text)?;
        write_crowded(alloc, out, text, self.sizes)?;
        let Some(bytes) = plan else {
            return Ok(());
        };
        let plan = plan_in(alloc, bytes, self.command.limits.executors)?;
        let done = write_plan(alloc, out, text, bytes, &plan);
        drop(plan);
        done
    }
}

/// Writes which lines of a plan can't come due.
fn write_plan(
    alloc: Global,
    out: &mut String,
    text: &ScriptText,
    bytes: &Octets,
    plan: &Plan,
) -> Result<(), AllocError> {
    let lines = lined_plan(alloc, bytes)?;
    let script = text.script();
    let jobs = job_places(alloc, script)?;
    let done = write_hopeless(out, plan, lines.as_slice(), script, &jobs);
    drop(jobs);
    done
}
