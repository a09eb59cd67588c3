//! Certificates: what is written of a source's claim, before and after it was refuted that a run breaks it.

ghost use Rattle.std.specs.Prelude.{◌≤◌, IfOk, length};
ghost use Rattle.kw_base.specs.Fault.{IfFault};
ghost use Rattle.one_rule.specs.Hosts.{host_specs};
ghost use Rattle.aig_blast.specs.Aigs.{AigParts};
ghost use Rattle.front_end.specs.Certified.{longest_certified};
ghost use Rattle.lab_certify.specs.Certificates.{IsUncertified, ShowsCertified, ShowsObligation};
ghost use Rattle.lab_certify.specs.Claims.{HasNoClaim, last_part};

use crate::claimed::Claimed;
use front_end::{certified_parts, proof_parts};
use host_fn::HostFn;
use kw_base::Refusal;
use kw_bits::Text;
use std::alloc::Global;

/// The text of the clauses that have to be refuted for a source's claim, by some bit-level circuit of its design; or the
/// first fault.
pub fn obligation_text(
    alloc: Global,
    hosts: &[HostFn],
    name: Option<Text>,
    source: &[u8],
) -> Result<Text, Refusal>
    requires { length source.now ≤ longest_certified }
    ensures text { IfOk result (λ text. (circuit : AigParts)
        × ShowsObligation circuit (host_specs hosts.now) name source.now text) }
    ensures refused { IfFault result (HasNoClaim (host_specs hosts.now) name (last_part source.now) source.now) }
{
    let parts = certified_parts(source);
    let claimed = Claimed::read(
        alloc,
        hosts,
        name,
        source,
        parts.certificate,
        parts.certificate_line,
    )?;
    let text = claimed.obligation_text(alloc)?;
    Ok(text)
}

/// What is certified of a source's claim, where its refutation of the clauses that have to be refuted is taken; or the
/// first fault.
pub fn certified_text(
    alloc: Global,
    hosts: &[HostFn],
    name: Option<Text>,
    source: &[u8],
) -> Result<Text, Refusal>
    requires { length source.now ≤ longest_certified }
    ensures text { IfOk result (λ text. (circuit : AigParts)
        × ShowsCertified circuit (host_specs hosts.now) name source.now text) }
    ensures refused { IfFault result (λ fault. (circuit : AigParts)
        × IsUncertified circuit (host_specs hosts.now) name source.now fault) }
{
    let parts = proof_parts(source);
    let claimed = Claimed::read(
        alloc,
        hosts,
        name,
        source,
        parts.invariant,
        parts.invariant_line,
    )?;
    claimed.check(alloc, parts.refutation, parts.refutation_line)?;
    let text = claimed.text(alloc)?;
    Ok(text)
}
