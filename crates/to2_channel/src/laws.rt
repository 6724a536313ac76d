ghost use Rattle.to2_channel.specs.Vectors.{VectorsDiffer};

/// An end's initialization vectors of two numbers are two vectors. Each text that it seals has the next number, so in a
/// session none comes twice from one end; those of the two ends differ in their first byte.
pub fn vectors_differ()
    ensures { VectorsDiffer }
{}
