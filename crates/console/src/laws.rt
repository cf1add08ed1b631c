// The laws of what is printed, each as what a function ensures, so that the check asks for its proof.
ghost use Rattle.console.specs.Listings.{LongFilesListAlike};

// A program may stop reading one byte beyond the largest file: the text is that for the whole.
pub fn long_files_list_alike()
    ensures { LongFilesListAlike }
{}
