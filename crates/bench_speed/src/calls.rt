// The words of a call.

use r3_faults::Fault;

/// What is to be run: the file of a module, a function by the name of its export or by its index, the
/// number that is its argument, and the most turns.
#[derive(Clone, Copy, Debug)]
pub(crate) struct Call<'a> {
    pub(crate) module: &'a str,
    pub(crate) function: &'a str,
    pub(crate) argument: u64,
    pub(crate) turns: u64,
}

/// The call that the words after the program's name give.
///
/// # Errors
///
/// The words have no form of a call.
pub(crate) fn call_of(words: &[String]) -> Result<Call<'_>, Fault> {
    let [module, function, argument, turns] = words else {
        return Err(Fault::Usage);
    };
    Ok(Call {
        module: module.as_str(),
        function: function.as_str(),
        argument: number_of(argument)?,
        turns: number_of(turns)?,
    })
}

/// A number of 64 bits in decimal.
fn number_of(word: &str) -> Result<u64, Fault> {
    match word.parse::<u64>() {
        Ok(number) => Ok(number),
        Err(_) => Err(Fault::Usage),
    }
}
