//! Sources: those that have a certificate after the design and the stimulus.

ghost use Rattle.std.specs.Prelude.{◌≡◌, ◌≤◌, All, Contains, IfOk, length};
ghost use Rattle.kw_base.specs.Fault.{IfFault};
ghost use Rattle.koika_check.specs.Typing.{IsTypedDesign};
ghost use Rattle.koika_check.specs.declared.checked.Host.{Host};
ghost use Rattle.one_rule.specs.Hosts.{host_specs};
ghost use Rattle.stim_report.specs.Cuts as cuts;
ghost use Rattle.front_end.specs.Certified as certified;
ghost use Rattle.front_end.specs.Certified.{HasNoParts, SpellsBoth, longest_certified};

use crate::shape::shape_of;
use crate::source::{Spelled, fault_of_source, read_design};
use host_fn::HostFn;
use journal_check::line_after;
use kw_base::{Refusal, fault_number};
use std::alloc::Global;
use stim_report::{SourceParts, read_stimulus, source_parts};

// The design part of a source with a certificate may have this many bytes.
const LONGEST_DESIGN: usize = 1_048_576;

/// A source cut at its first two lines `%%`, with the numbers of the lines with which its parts begin.
#[derive(Clone, Copy, Debug)]
pub struct CertifiedParts<'a> {
    pub design: &'a [u8],
    pub stimulus: &'a [u8],
    pub stimulus_line: u32,
    pub certificate: &'a [u8],
    pub certificate_line: u32,
}

/// A certificate that is an invariant and its refutation, with the numbers of the lines with which they begin.
#[derive(Clone, Copy, Debug)]
pub struct ProofParts<'a> {
    pub invariant: &'a [u8],
    pub invariant_line: u32,
    pub refutation: &'a [u8],
    pub refutation_line: u32,
}

/// A source cut at its first two lines `%%`.
pub fn certified_parts(source: &[u8]) -> CertifiedParts<'_>
    requires { length source.now ≤ longest_certified }
    ensures design { result.design.now ≡ (certified.parts_of source.now).design }
    ensures stimulus { result.stimulus.now ≡ (certified.parts_of source.now).stimulus }
    ensures stimulus_line { result.stimulus_line ≡ (certified.parts_of source.now).stimulus_line }
    ensures certificate { result.certificate.now ≡ (certified.parts_of source.now).certificate }
    ensures certificate_line { result.certificate_line ≡ (certified.parts_of source.now).certificate_line }
{
    let front = source_parts(source);
    let back = source_parts(front.stimulus);
    CertifiedParts {
        design: front.design,
        stimulus: back.design,
        stimulus_line: front.first_line,
        certificate: back.stimulus,
        certificate_line: line_after_mark(source, front.stimulus, back, front.first_line),
    }
}

/// A source's certificate cut at its own first line `%%`.
pub fn proof_parts(source: &[u8]) -> ProofParts<'_>
    requires { length source.now ≤ longest_certified }
    ensures invariant { result.invariant.now ≡ (certified.proof_parts_of source.now).invariant }
    ensures invariant_line { result.invariant_line ≡ (certified.proof_parts_of source.now).invariant_line }
    ensures refutation { result.refutation.now ≡ (certified.proof_parts_of source.now).refutation }
    ensures refutation_line { result.refutation_line ≡ (certified.proof_parts_of source.now).refutation_line }
{
    let parts = certified_parts(source);
    let ends = source_parts(parts.certificate);
    ProofParts {
        invariant: ends.design,
        invariant_line: parts.certificate_line,
        refutation: ends.stimulus,
        refutation_line: line_after_mark(source, parts.certificate, ends, parts.certificate_line),
    }
}

// The number of the line with which the bytes after the next mark begin, where these parts are those of the rest of a
// source, which begins with the line of this number.
fn line_after_mark(source: &[u8], rest: &[u8], parts: SourceParts<'_>, number: u32) -> u32
    requires design { parts.design.now ≡ (cuts.parts_of rest.now).design }
    requires first_line { parts.first_line ≡ (cuts.parts_of rest.now).first_line }
    ensures { result ≡ certified.line_after_mark source.now rest.now number }
{
    if parts.design.len() < rest.len() {
        number.saturating_add(parts.first_line - 1)
    } else {
        line_after(1, source)
    }
}

/// What the first two parts of a source with a certificate spell, or the first fault of them.
pub fn spell_parts(
    alloc: Global,
    hosts: &[HostFn],
    source: &[u8],
    parts: CertifiedParts<'_>,
) -> Result<Spelled, Refusal>
    requires short { length source.now ≤ longest_certified }
    requires design { parts.design.now ≡ (certified.parts_of source.now).design }
    requires stimulus { parts.stimulus.now ≡ (certified.parts_of source.now).stimulus }
    requires stimulus_line { parts.stimulus_line ≡ (certified.parts_of source.now).stimulus_line }
    ensures spelled { IfOk result (λ it. SpellsBoth (host_specs hosts.now) source.now it.design it.stimulus) }
    ensures typed { IfOk result (λ it. IsTypedDesign it.design) }
    ensures offered { IfOk result (λ it.
        All (λ (host : Host). Contains (host_specs hosts.now) host.spec) it.design.hosts) }
    ensures refused { IfFault result (HasNoParts (host_specs hosts.now) source.now) }
{
    let _source = source;
    if parts.design.len() > LONGEST_DESIGN {
        return Err(Refusal::Fault(fault_of_source(fault_number::SOURCE_TOO_LONG)));
    }
    let design = read_design(alloc, hosts, parts.design, parts.design)?;
    let shape = shape_of(alloc, &design)?;
    let stimulus = read_stimulus(alloc, parts.stimulus, parts.stimulus_line, &shape)?;
    Ok(Spelled {
        design,
        shape,
        stimulus,
    })
}
