use std::alloc::{AllocError, AllocFailed};

/// Why a definition has no signature and rules for its main module. The names are those of the definition.
#[derive(Drop)]
pub enum ModuleFault {
    /// M1: an import in a reached module names no module.
    UnknownImport(String),
    /// M2: a chain of imports leads from a reached module back to it.
    ImportCycle,
    /// M3: a sort is declared twice in the reached modules.
    DuplicateSort(String),
    /// M4: a symbol is declared twice in the reached modules.
    DuplicateSymbol(String),
    /// M5: two modules of the file have one name.
    DuplicateModule(String),
    /// M6: a rewrite axiom that is read has a verify fault; its number among the axioms of its module, from 1.
    RuleFault { axiom: usize },
    /// M8: no module is named as the main one.
    NoMainModule,
}

impl ModuleFault {
    ghost use Rattle.std.specs.Prelude.{◌≡◌};
    ghost use Rattle.kp_imports.specs.Faults.{fault_code, told_fault};

    /// The code of the fault, as `M1`.
    pub fn code(&self) -> &'static str
        ensures { result.now ≡ fault_code (told_fault self.now) }
    {
        match self {
            ModuleFault::UnknownImport(_) => "M1",
            ModuleFault::ImportCycle => "M2",
            ModuleFault::DuplicateSort(_) => "M3",
            ModuleFault::DuplicateSymbol(_) => "M4",
            ModuleFault::DuplicateModule(_) => "M5",
            ModuleFault::RuleFault { .. } => "M6",
            ModuleFault::NoMainModule => "M8",
        }
    }
}

/// Why nothing was loaded.
#[derive(Drop)]
pub enum LoadError {
    Memory,
    Fault(ModuleFault),
}

impl From<AllocError> for LoadError {
    ghost use Rattle.std.specs.Prelude.{◌≡◌};
    ghost use Rattle.kp_imports.specs.declared.fault.LoadError.TheVariants.{Memory};

    ghost from_gives = { λ _ e. e ≡ Memory };

    fn from(_error: AllocError) -> Self {
        LoadError::Memory
    }
}

impl<T: Drop> From<AllocFailed<T>> for LoadError {
    ghost use Rattle.std.specs.Prelude.{◌≡◌};
    ghost use Rattle.kp_imports.specs.declared.fault.LoadError.TheVariants.{Memory};

    ghost from_gives = { λ _ e. e ≡ Memory };

    fn from(_error: AllocFailed<T>) -> Self {
        LoadError::Memory
    }
}
