//! The distribution points of a certificate (RFC 5280, 4.2.1.13).

ghost use Rattle.std.specs.Prelude.{◌≡◌, IfOk, OnOk};
ghost use Rattle.asn.specs.Reading.{left, ReadsAs};
ghost use Rattle.cert.specs.Fault.{GivesUnlessFull, ReadsUnlessFull};
ghost use Rattle.cert_points.specs.GeneralNames.{octets_of};
ghost use Rattle.cert_points.specs.DistributionPoints.{all_points, distribution_points, seen_points, seen_point_list, AddsPoint};
ghost use Rattle.cert_points.specs.CompleteNames.{complete_names, AddsCompleteNames};
ghost use Rattle.cert_points.specs.LimitedNames.{limited_names, AddsLimitedNames};

use crate::distribution_point::DistributionPoint;
use asn::{Cursor, SEQUENCE, Tlv};
use cert::{CertFault, CertRule, contained_value};
use std::alloc::{AllocError, Global};

/// CRLDistributionPoints ::= SEQUENCE SIZE (1..MAX) OF DistributionPoint
#[derive(Drop)]
pub struct DistributionPoints<'a> {
    /// The points, in order.
    pub points: Vec<DistributionPoint<'a>>,
}

/// Adds the point that the value is.
#[tactic(auto, unfolding(crate::specs::DistributionPoints::one_more_point))]
fn push_point<'a>(all: &mut Vec<DistributionPoint<'a>>, value: Tlv<'a>) -> Result<(), CertFault>
    ensures { AddsPoint value.entry all.old all.new result }
{
    let point = DistributionPoint::read(value)?;
    all.push(point)?;
    Ok(())
}

/// The points that the values are.
fn point_list<'a>(
    alloc: Global,
    members: Cursor<'a>,
) -> Result<Vec<DistributionPoint<'a>>, CertFault>
    ensures { GivesUnlessFull seen_point_list result (all_points (left members.entry)) }
{
    let mut members = members;
    let mut all = Vec::new(alloc);
    while let Some(value) = members.next() {
        push_point(&mut all, value)?;
    }
    Ok(all)
}

/// The points that the OCTET STRING holds.
#[tactic(auto, unfolding(crate::specs::DistributionPoints::distribution_points))]
fn point_values<'a>(
    alloc: Global,
    octet_string: Tlv<'a>,
) -> Result<Vec<DistributionPoint<'a>>, CertFault>
    ensures { ReadsUnlessFull seen_point_list result octet_string.entry distribution_points }
{
    let value = contained_value(octet_string)?;
    value.is_a(SEQUENCE, CertRule::ExtensionValue)?;
    let members = value.members();
    members.some(CertRule::ExtensionValue)?;
    point_list(alloc, members)
}

/// Adds the names of the point, if lists about all reasons are published there.
fn push_complete_names<'a>(
    all: &mut Vec<&'a [u8]>,
    point: &DistributionPoint<'a>,
) -> Result<(), AllocError>
    ensures { OnOk result (AddsCompleteNames point.now all.old all.new) }
{
    match point.complete_names() {
        None => Ok(()),
        Some(names) => names.push_octets(all),
    }
}

/// Adds the names of the point, if it has reasons or cRLIssuer.
fn push_limited_names<'a>(
    all: &mut Vec<&'a [u8]>,
    point: &DistributionPoint<'a>,
) -> Result<(), AllocError>
    ensures { OnOk result (AddsLimitedNames point.now all.old all.new) }
{
    match point.limited_names() {
        None => Ok(()),
        Some(names) => names.push_octets(all),
    }
}

impl<'a> DistributionPoints<'a> {
    /// Reads the points in the contents of an extension's OCTET STRING; else the first fault: `Der` in these, `ExtensionValue` at a value
    /// that is no SEQUENCE, or at the end of one that is empty, or that of a point. Time is linear in the octets. Memory is taken for
    /// the list; `CertFault::Memory` is answered only if that was refused.
    pub fn of_value(
        alloc: Global,
        octet_string: Tlv<'a>,
    ) -> Result<DistributionPoints<'a>, CertFault>
        ensures { ReadsUnlessFull seen_points result octet_string.entry distribution_points }
    {
        let points = point_values(alloc, octet_string)?;
        Ok(DistributionPoints { points })
    }

    /// The names under which lists about all reasons may be published for the certificate, by its issuer: the full names of the points
    /// without reasons and without cRLIssuer, in order. Each name is its octets; a list is found there if a name of its own point has the
    /// same.
    pub fn complete_names(&self, alloc: Global) -> Result<Vec<&'a [u8]>, AllocError>
        ensures { IfOk result (λ names. octets_of names ≡ complete_names (seen_points self.now)) }
    {
        let mut all = Vec::new(alloc);
        for point in self.points.iter() {
            push_complete_names(&mut all, point)?;
        }
        Ok(all)
    }

    /// The full names of the other points, those with reasons or cRLIssuer, in order.
    pub fn limited_names(&self, alloc: Global) -> Result<Vec<&'a [u8]>, AllocError>
        ensures { IfOk result (λ names. octets_of names ≡ limited_names (seen_points self.now)) }
    {
        let mut all = Vec::new(alloc);
        for point in self.points.iter() {
            push_limited_names(&mut all, point)?;
        }
        Ok(all)
    }
}
