/// The order of the bytes of a number on the wire (D-Bus Specification, "Marshaling").
#[derive(Clone, Copy, Debug, PartialEq, Eq)]
pub enum Endian {
    /// The least significant byte comes first: `l`.
    Little,
    /// The most significant byte comes first: `B`.
    Big,
}
