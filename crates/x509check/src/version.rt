/// The SHA-256 of the sources that the program is made from, as `.ci/sources` prints it.
pub(crate) const SOURCES: &str = "25cd29757bdfb4a033af3f4bdc73b224908831333d3bbbd9ab335cf059b398e5";
