// A term against a sort.
ghost use Rattle.std.specs.Prelude.{◌≡◌};
ghost use Rattle.std.specs.Option.{option_map};
ghost use Rattle.kp_symbolic.specs.View.{variable_view, term_view};
ghost use Rattle.kp_unify.specs.Heads.{variable_in};

use crate::course::Course;
use crate::head_sorts::has_sort;
use crate::literals::make_unknown;
use crate::part::Setting;
use crate::shared_sorts::{meet_of, share_values};
use kp_compile::CompileError;
use kp_kore::Sort;
use kp_symbolic::{Term, Variable};
use std::alloc::Global;
use std::sync::Arc;

/// The variable that a term is.
pub fn variable_of(term: &Term) -> Option<&Arc<Variable>>
    ensures { option_map (λ x. variable_view x.now.value) result ≡ variable_in (term_view term.now) }
{
    match term {
        Term::Unknown { variable } => Some(variable),
        Term::Offset { .. } | Term::Known { .. } | Term::Headed { .. } => None,
    }
}

impl<'a> Course<'a> {
    ghost use Rattle.kp_kore.specs.Syntax.{KoreSort};
    ghost use Rattle.kp_kore.specs.View.{sort_view};
    ghost use Rattle.kp_symbolic.specs.Terms.{unknown};
    ghost use Rattle.kp_symbolic.specs.View.{variable_view, term_view};
    ghost use Rattle.kp_case_laws.specs.Courses.{IsMeet};
    ghost use Rattle.kp_unify.specs.Views.{signature_of, HasItsTable};
    ghost use Rattle.kp_unify.specs.Promises.{PlacesTerm};

    /// The term where it has the sort, narrowed to it where that is asked; none where no value of it has.
    pub fn placed(
        &mut self,
        alloc: Global,
        setting: &Setting<'_>,
        term: &Term,
        sort: &Sort,
    ) -> Result<Option<Term>, CompileError>
        requires heads { HasItsTable setting.now }
        ensures { PlacesTerm setting.now self.old (term_view term.now) (sort_view sort.now) result self.new }
    {
        if has_sort(setting.language.signature, term, sort) {
            return Ok(Some(term.share(alloc)?));
        }
        match variable_of(term) {
            Some(variable) => self.narrowed(alloc, setting, variable, sort),
            None => Ok(None),
        }
    }

    /// The variable where its value has the sort.
    fn narrowed(
        &mut self,
        alloc: Global,
        setting: &Setting<'_>,
        variable: &Arc<Variable>,
        sort: &Sort,
    ) -> Result<Option<Term>, CompileError>
        requires heads { HasItsTable setting.now }
        ensures { PlacesTerm setting.now self.old (unknown (variable_view variable.now.value)) (sort_view sort.now) result self.new }
    {
        match meet_of(setting.language.signature, &variable.sort, sort) {
            Some(meet) => self.narrowed_to(alloc, setting, variable, sort, meet),
            None => self.narrowed_by_heads(alloc, setting, variable, sort),
        }
    }

    /// The variable as a new one of the sort's meet with its own.
    fn narrowed_to(
        &mut self,
        alloc: Global,
        setting: &Setting<'_>,
        variable: &Arc<Variable>,
        sort: &Sort,
        meet: &Sort,
    ) -> Result<Option<Term>, CompileError>
        requires { IsMeet (signature_of setting.now) (variable_view variable.now.value).sort (sort_view sort.now) (sort_view meet.now) }
        ensures { PlacesTerm setting.now self.old (unknown (variable_view variable.now.value)) (sort_view sort.now) result self.new }
    {
        if !setting.table.has_value(setting.language.signature, meet) {
            return Ok(None);
        }
        Ok(Some(self.narrow_to_sort(alloc, setting, variable, meet)?))
    }

    /// The variable itself, where its head is one of the sort's.
    fn narrowed_by_heads(
        &mut self,
        alloc: Global,
        setting: &Setting<'_>,
        variable: &Arc<Variable>,
        sort: &Sort,
    ) -> Result<Option<Term>, CompileError>
        requires heads { HasItsTable setting.now }
        requires apart { (m : KoreSort) → ¬ IsMeet (signature_of setting.now) (variable_view variable.now.value).sort (sort_view sort.now) m }
        ensures { PlacesTerm setting.now self.old (unknown (variable_view variable.now.value)) (sort_view sort.now) result self.new }
    {
        let signature = setting.language.signature;
        if !share_values(setting.table, signature, &variable.sort, sort) {
            return Ok(None);
        }
        self.ask_head(alloc, setting, variable, sort)?;
        Ok(Some(make_unknown(variable)?))
    }
}
