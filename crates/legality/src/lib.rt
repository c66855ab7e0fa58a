// Which lists of entries are legal, which rows they have, and what refuses an entry or a row: definitions and their laws.
#![tactic(auto)]

ghost use Rattle.legality.specs.File.{FilesKeepTheLaw};
ghost use Rattle.legality.specs.Progress.{ProgressLaw};

pub fn file_law()
    ensures { FilesKeepTheLaw }
{}

pub fn progress_law()
    ensures { ProgressLaw }
{}
