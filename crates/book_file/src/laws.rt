// The laws of the layout, each as what a function ensures, so that the check asks for its proof.
ghost use Rattle.book_file.specs.Laws.{FileTellsContent, FilesAreAccepted, AcceptedBytesAreFiles, LargestFile, LongFilesReadAlike};

// Two contents never share a file, every content within the limits has one that is accepted, and nothing else is.
pub fn one_content_has_one_file()
    ensures tells { FileTellsContent }
    ensures accepted { FilesAreAccepted }
    ensures nothing_else { AcceptedBytesAreFiles }
{}

// Who reads one byte more than the largest file has, and no further, refuses and accepts as for the whole.
pub fn long_files_read_alike()
    ensures largest { LargestFile }
    ensures alike { LongFilesReadAlike }
{}
