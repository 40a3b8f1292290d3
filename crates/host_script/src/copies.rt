// Copies of answers and their parts.

ghost use Rattle.std.specs.Prelude.{◌≡◌, IfOk};

use crate::scripts::{Action, Answer, Response};
use base::NoMemory;
use wasm_syntax::Item;

impl Action {
    /// An equal action.
    ///
    /// # Errors
    /// If an allocation failed.
    pub fn clone(&self) -> Result<Action, NoMemory>
        ensures { IfOk result (λ copy. copy ≡ self.now) }
    {
        match self {
            Action::Write { to, bytes } => {
                let bytes = bytes.clone()?;
                Ok(Action::Write { to: *to, bytes })
            }
            Action::Copy { to, source, count } => Ok(Action::Copy {
                to: *to,
                source: *source,
                count: *count,
            }),
            Action::SetTable { index, func } => Ok(Action::SetTable {
                index: *index,
                func: *func,
            }),
            Action::SetGlobal { global, value } => Ok(Action::SetGlobal {
                global: *global,
                value: *value,
            }),
            Action::Grow { pages } => Ok(Action::Grow { pages: *pages }),
            Action::GrowTable { entries } => Ok(Action::GrowTable { entries: *entries }),
            Action::Call { func, args } => {
                let args = args.clone()?;
                Ok(Action::Call { func: *func, args })
            }
            Action::CallTable { index, args } => {
                let args = args.clone()?;
                Ok(Action::CallTable {
                    index: *index,
                    args,
                })
            }
        }
    }
}

impl Item for Action {
    fn copy(&self) -> Result<Action, NoMemory> {
        self.clone()
    }
}

impl Response {
    /// An equal response.
    ///
    /// # Errors
    /// If an allocation failed.
    pub fn clone(&self) -> Result<Response, NoMemory>
        ensures { IfOk result (λ copy. copy ≡ self.now) }
    {
        let actions = self.actions.clone()?;
        Ok(Response {
            actions,
            end: self.end,
        })
    }
}

impl Item for Response {
    fn copy(&self) -> Result<Response, NoMemory> {
        self.clone()
    }
}

impl Answer {
    /// An equal answer.
    ///
    /// # Errors
    /// If an allocation failed.
    pub fn clone(&self) -> Result<Answer, NoMemory>
        ensures { IfOk result (λ copy. copy ≡ self.now) }
    {
        let calls = self.calls.clone()?;
        let rest = match &self.rest {
            Some(response) => Some(response.clone()?),
            None => None,
        };
        Ok(Answer { calls, rest })
    }
}
