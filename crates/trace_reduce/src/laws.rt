// Laws of the results, each the contract of a function; the statements are in `specs/Answers.antt`.

ghost use Rattle.trace_reduce.specs.Answers.{AnswersAreExact, ReductionsAreExact};

use record_replay_spec::log_tape_is_one;

/// A reducer returns the result that is due, unless memory runs out.
pub fn answers_are_exact()
    ensures { AnswersAreExact }
{
    log_tape_is_one();
}

/// `reduce` returns the result that is due, unless memory runs out.
pub fn reductions_are_exact()
    ensures { ReductionsAreExact }
{
    log_tape_is_one();
}
