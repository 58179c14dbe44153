//! Laws over the definitions that the contracts cite. Each function does nothing: what it ensures is the law.
ghost use Rattle.std.specs.Prelude.{◌≡◌, ◌≤◌, true, length, List, ℕ, All};
ghost use Rattle.rn_modset.specs.Contributions.{is_module_name};
ghost use Rattle.rn_modset.specs.Limits.{max_name};
ghost use Rattle.rn_files.specs.ModuleNames.{IsByte, name_of};

/// Distinct paths have distinct names.
pub fn paths_have_names_of_their_own()
    ensures { (a b : List ℕ) → All IsByte a → All IsByte b → name_of a ≡ name_of b → a ≡ b }
{}

/// What is made of a path is a module's name, if it has a byte and no more than [`rn_modset::MAX_NAME`].
pub fn names_are_those_of_modules()
    ensures { (path : List ℕ) → 1 ≤ length (name_of path) → length (name_of path) ≤ max_name
        → is_module_name (name_of path) ≡ true }
{}
