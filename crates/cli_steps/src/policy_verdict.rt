//! A verdict on a path whose certificate policies were processed, and the lines that say it.
ghost use Rattle.std.specs.Prelude.{◌≡◌, IfErr, IfOk};
ghost use Rattle.std.specs.List.{flat_map};
ghost use Rattle.cli_failures.specs.declared.failure.Failure.TheVariants.{NoMemory};
ghost use Rattle.cli_printing.specs.Written.{Writes};
ghost use Rattle.cli_steps.specs.PolicyText.{SaysVerdict, policies_text, policy_line, policy_verdict_lines};

use asn::Oid;
use cli_answers::verdict_to;
use cli_failures::Failure;
use cli_printing::write_oid;
use path_policies::PolicySets;
use relying_agreement::Verdict;
use relying_policies::VerdictWithPolicies;
use std::alloc::Global;
use std::io;
use std::io::Write;

/// A verdict on a path whose certificate policies were processed.
#[derive(Debug, Drop, PartialEq, Eq)]
pub struct PolicyVerdict {
    pub verdict: Verdict,
    /// The line of the verdict, and those of the policies at the end of the path; none if it is invalid.
    pub lines: Vec<u8>,
}

fn write_policy<W: Write>(word: &str, policy: Oid<'_>, writer: &mut W) -> io::Result<()>
    ensures { Writes W.contents writer.old writer.new result (policy_line word.now policy.entry) }
{
    writer.write_all(word.as_bytes())?;
    write_oid(policy.contents(), writer)?;
    writer.write_all(b"\n")
}

fn write_policies<W: Write>(word: &str, policies: &[Oid<'_>], writer: &mut W) -> io::Result<()>
    ensures { Writes W.contents writer.old writer.new result
        (flat_map (policy_line word.now) policies.now) }
{
    'each: for policy in policies {
        write_policy(word, *policy, writer)?;
    }
    Ok(())
}

fn write_sets<W: Write>(sets: &Option<PolicySets<'_>>, writer: &mut W) -> io::Result<()>
    ensures { Writes W.contents writer.old writer.new result (policies_text sets.now) }
{
    let Some(sets) = sets else {
        return Ok(());
    };
    write_policies("policy ", sets.authority_constrained.as_slice(), writer)?;
    write_policies("user-policy ", sets.user_constrained.as_slice(), writer)
}

fn write_answer<W: Write>(answer: &VerdictWithPolicies<'_>, writer: &mut W) -> io::Result<()>
    ensures { Writes W.contents writer.old writer.new result (policy_verdict_lines answer.now) }
{
    verdict_to(answer.verdict, writer)?;
    write_sets(&answer.policies, writer)
}

/// What is told of a verdict with policies.
pub(crate) fn told_of<'a>(
    alloc: Global,
    answer: &VerdictWithPolicies<'_>,
) -> Result<PolicyVerdict, Failure<'a>>
    ensures says { IfOk result (SaysVerdict answer.now) }
    ensures fails { IfErr result (λ failure. failure ≡ NoMemory) }
{
    let mut lines = Vec::new(alloc);
    match write_answer(answer, &mut lines) {
        Ok(()) => Ok(PolicyVerdict {
            verdict: answer.verdict,
            lines,
        }),
        Err(_) => Err(Failure::NoMemory),
    }
}
