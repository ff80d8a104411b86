//! Where lists for a certificate are published: cRLDistributionPoints (RFC 5280, 4.2.1.13), for who asks for it.
#![tactic(auto)]

mod certificate_points;
mod distribution_point;
mod general_names;
mod layout;
mod point_name;
mod points;
mod published;
mod reasons;
mod relative_name;

pub use distribution_point::DistributionPoint;
pub use general_names::GeneralNames;
pub use layout::{point_layout_laws, point_reading_laws};
pub use point_name::PointName;
pub use points::DistributionPoints;
pub use published::take_points;
