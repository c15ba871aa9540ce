/// The most bytes that the elements of an array may have (D-Bus Specification, "Marshaling").
pub const ARRAY_LIMIT: usize = 67_108_864;

/// How many arrays, structs, dict entries and variants may be open at once (D-Bus Specification,
/// "Type System").
pub const DEPTH_LIMIT: u8 = 64;
