// Which variables stand in a term.
ghost use Rattle.std.specs.Prelude.{◌≡◌, ◌++◌, OnOk, map};
ghost use Rattle.kp_kore.specs.Instance.{is_named};
ghost use Rattle.kp_symbolic.specs.Terms.{term_variables, all_term_variables};
ghost use Rattle.kp_symbolic.specs.View.{term_view, terms_of, variables_view};

use crate::term::Term;
use crate::variable::Variable;
use std::alloc::AllocError;
use std::sync::Arc;

impl Term {
    /// Adds the variables, one for each place where one stands.
    #[cycle(variables)]
    pub fn add_variables(&self, found: &mut Vec<Arc<Variable>>) -> Result<(), AllocError>
        ensures { OnOk result (variables_view found.new.items ≡ variables_view found.old.items ++ term_variables (term_view self.now)) }
    {
        match self {
            Term::Unknown { variable } => Ok(found.push(variable.clone()?)?),
            Term::Offset { variable, .. } => Ok(found.push(variable.clone()?)?),
            Term::Known { .. } => Ok(()),
            Term::Headed { arguments, .. } => Term::add_all_variables(arguments, found),
        }
    }

    /// The same of terms, one by one.
    #[cycle(variables)]
    pub fn add_all_variables(
        terms: &[Term],
        found: &mut Vec<Arc<Variable>>,
    ) -> Result<(), AllocError>
        ensures { OnOk result (variables_view found.new.items ≡ variables_view found.old.items ++ all_term_variables (terms_of (map term_view terms.now))) }
    {
        for term in terms {
            term.add_variables(found)?;
        }
        Ok(())
    }

    /// Whether a variable of this name stands in the term.
    #[cycle(occurs)]
    pub fn has_name(&self, name: &str) -> bool
        ensures { result ≡ is_named name.now (term_variables (term_view self.now)) }
    {
        match self {
            Term::Unknown { variable } => variable.name.as_str() == name,
            Term::Offset { variable, .. } => variable.name.as_str() == name,
            Term::Known { .. } => false,
            Term::Headed { arguments, .. } => Term::some_has_name(arguments, name),
        }
    }

    /// Whether a variable of this name stands in one of the terms.
    #[cycle(occurs)]
    pub fn some_has_name(terms: &[Term], name: &str) -> bool
        ensures { result ≡ is_named name.now (all_term_variables (terms_of (map term_view terms.now))) }
    {
        for term in terms {
            if term.has_name(name) {
                return true;
            }
        }
        false
    }
}
