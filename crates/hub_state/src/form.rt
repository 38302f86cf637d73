use hub_path::Root;

/// The version of a state text, which its header names.
#[derive(Clone, Copy, Debug, PartialEq, Eq)]
pub enum Version {
    /// `hubsync state 1`: a file of a replica has its bytes.
    One,
    /// `hubsync state 2`: blobs stand above the sections, and a file of a replica names one by its digest.
    Two,
}

/// The form of a line, by its first word.
#[derive(Clone, Copy, Debug, PartialEq, Eq)]
pub enum Form {
    /// `blob DIGEST HEX`
    Blob,
    /// `replica ROOT`
    Replica,
    /// `archive ROOT`
    Archive,
    /// `with ROOT`
    With,
    /// `dir PATH`
    Dir,
    /// `file HEX PATH` or `file DIGEST PATH`
    File,
    /// `end`
    End,
}

/// What the entries below a line belong to.
#[derive(Debug, Drop)]
pub enum Section {
    /// Nothing, since no section has begun.
    Nothing,
    /// The replica that began last.
    Replica,
    /// Nothing yet: the first line of an archive names this root, and the other root follows.
    HalfArchive(Root),
    /// The archive that began last.
    Archive,
}
