// Numbers for what the indices of a module name.

ghost use Rattle.std.specs.Prelude.{◌≡◌, option_map};

/// The number of each type, function and global that an index of a module may name (Core 1.0, 4.2.5). An index that
/// names nothing has a number as well.
pub trait Numbering {
    ghost use Rattle.instance_spec.specs.Instances.{Instance};

    // the numbers
    ghost instance: { Self → Instance };

    /// The number of a type.
    fn ty(&self, ty: u32) -> u32
        ensures { result ≡ (instance self.now).types ty };

    /// The number of a function.
    fn func(&self, func: u32) -> u32
        ensures { result ≡ (instance self.now).funcs func };

    /// The number of a global.
    fn global(&self, global: u32) -> u32
        ensures { result ≡ (instance self.now).globals global };
}

/// A start function by its number.
pub fn renamed_start<N: Numbering>(numbering: &N, start: Option<u32>) -> Option<u32>
    ensures { result ≡ option_map (N.instance numbering.now).funcs start }
{
    match start {
        Some(func) => Some(numbering.func(func)),
        None => None,
    }
}
