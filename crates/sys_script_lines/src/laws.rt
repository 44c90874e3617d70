//! What holds of every file that is read.

ghost use Rattle.std.specs.Prelude.{ℕ, List, Option, Ok};
ghost use Rattle.system_side.specs.declared.file.SysFile.{SysFile};
ghost use Rattle.sys_script_lines.specs.declared.externals.External.{External};
ghost use Rattle.sys_script_lines.specs.Fits.{IsFit};
ghost use Rattle.sys_script_lines.specs.Scripts.{IsRead, script_of};

/// A law: the numbers of a file that is read are in their ranges, and each of its answers is one that its function may have.
pub fn read_files_are_fit()
    ensures { (who : List ℕ → Option External) (bytes : List ℕ) (file : SysFile) →
        IsRead (script_of who bytes) (Ok file) → IsFit who file }
{}
