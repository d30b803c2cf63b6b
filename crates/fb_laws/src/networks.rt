//! Laws of the faults of networks: where each code is reported.
ghost use Rattle.fb_laws.specs.Networks.{AdaptersHaveOneEnd, DestinationsHaveOneSource, NothingPassesThrough, ParametersAreKnown, ParametersFit, PortsAreKnown, PortsAreOfRightSides, TypesAgree};

/// An end of a connection is a fault if and only if it names no port of the connection's sort, but for ports, within its reach, of a type
/// that is not usable.
pub fn ports_are_known()
    ensures { PortsAreKnown }
{}

/// An end of a connection is a fault if and only if it names a port of the wrong side.
pub fn ports_are_of_right_sides()
    ensures { PortsAreOfRightSides }
{}

/// The destination of a connection is a fault if and only if both ends name ports of the right sides, and these are of different data types,
/// neither of the class Free, or of adapter types of different names.
pub fn types_agree()
    ensures { TypesAgree }
{}

/// The destination of a data connection is a fault if and only if it is that of an earlier one in the network.
pub fn destinations_have_one_source()
    ensures { DestinationsHaveOneSource }
{}

/// An end of an adapter connection is a fault if and only if it is one of an earlier adapter connection in the network, or is a destination that
/// names the same as its own source.
pub fn adapters_have_one_end()
    ensures { AdaptersHaveOneEnd }
{}

/// A connection of a subapplication is a fault if and only if it joins two own ports of the right sides.
pub fn nothing_passes_through()
    ensures { NothingPassesThrough }
{}

/// A parameter of a block instance is a fault if and only if it means no data input of the instance's type, and this type is usable.
pub fn parameters_are_known()
    ensures { ParametersAreKnown }
{}

/// The value of a parameter of a block instance, or an element of a list, is a fault if and only if it does not fit the type of the data
/// input.
pub fn parameters_fit()
    ensures { ParametersFit }
{}
