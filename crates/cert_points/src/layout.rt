//! What the walks find, in the words of the standard.

ghost use Rattle.cert_points.specs.CompleteNames.{CompleteNamesAreExact};
ghost use Rattle.cert_points.specs.DistributionPoint.{DistributionPointIsExact};
ghost use Rattle.cert_points.specs.DistributionPoints.{DistributionPointsAreExact};
ghost use Rattle.cert_points.specs.GeneralNames.{GeneralNamesAreExact};
ghost use Rattle.cert_points.specs.Offsets.{PointFaultIsOfValue, PointNameFaultIsWithin};
ghost use Rattle.cert_points.specs.LimitedNames.{LimitedNamesAreExact};
ghost use Rattle.cert_points.specs.OneAnswer.{NamesHaveOneAnswer, NameHasOneAnswer, PointHasOneAnswer, PointsHaveOneAnswer, CertificateHasOneAnswer};
ghost use Rattle.cert_points.specs.PointName.{PointNameIsExact};
ghost use Rattle.cert_points.specs.PointReading.{PointsAreOfExtension};
ghost use Rattle.cert_points.specs.ReasonFlags.{ReasonFlagsAreExact};
ghost use Rattle.cert_points.specs.RelativeName.{RelativeNameIsExact};

use cert::offset_laws;

/// A value is read as general names, as a relative name, as the name of a point, as reasons or as a point, and the contents of an OCTET
/// STRING as cRLDistributionPoints, exactly if they are that. Of a certificate that was read, `DistributionPoints::read` answers exactly what
/// its extension of this type says; its fault is `ExtensionValue`, `Der` or `Name`, with an offset that is at most the length of the
/// certificate's octets. So is the fault of the name of a point, in the text that it stands in. A name is among the complete ones exactly if
/// it is a full name of a point without reasons and without cRLIssuer, and among the limited ones exactly if it is one of another point.
pub fn point_layout_laws()
    ensures general_names { GeneralNamesAreExact }
    ensures relative_name { RelativeNameIsExact }
    ensures point_name { PointNameIsExact }
    ensures reasons { ReasonFlagsAreExact }
    ensures point { DistributionPointIsExact }
    ensures points { DistributionPointsAreExact }
    ensures certificate { PointsAreOfExtension }
    ensures complete_names { CompleteNamesAreExact }
    ensures limited_names { LimitedNamesAreExact }
    ensures fault { PointFaultIsOfValue }
    ensures name_fault { PointNameFaultIsWithin }
{
    offset_laws();
}

/// General names, the name of a point, a point, cRLDistributionPoints and a certificate are each one reading and no other.
pub fn point_reading_laws()
    ensures general_names { NamesHaveOneAnswer }
    ensures point_name { NameHasOneAnswer }
    ensures point { PointHasOneAnswer }
    ensures points { PointsHaveOneAnswer }
    ensures certificate { CertificateHasOneAnswer }
{}
