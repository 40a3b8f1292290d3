// Laws on bytes and the numbers that they represent.

ghost use Rattle.generated_code_laws.specs.Bytes.{NumbersHoldBytes};

/// Bytes are the lowest bytes of the number that they represent.
pub fn bytes_are_numbers()
    ensures { NumbersHoldBytes }
{}
