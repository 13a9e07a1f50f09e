//! What holds of the paths of nodes, for all keys: laws on their definitions, with no code.

ghost use Rattle.dl_formats.specs.KeyLaws.{KeysHavePathsOfTheirOwn, KeysAreTold, InsertIsByKey};
ghost use Rattle.dl_formats.specs.KeyLaws.{RemoveIsByKey, PathsGoByParents, PathsHaveTheirForm};

/// Different keys have different paths, provided that their numbers have ten digits and their names no slash.
pub fn keys_have_paths_of_their_own()
    ensures { KeysHavePathsOfTheirOwn }
{}

/// The test of keys says whether they are the same key.
pub fn keys_are_told()
    ensures { KeysAreTold }
{}

/// In a map from paths to values of any type, a value that is put at one key's path stands there, and nothing changes at
/// another key's.
pub fn insert_is_by_key<T>()
    ensures { InsertIsByKey T }
{}

/// In a map from paths to values of any type, nothing stands at a key's path once the value there is removed, and
/// nothing changes at another key's.
pub fn remove_is_by_key<T>()
    ensures { RemoveIsByKey T }
{}

/// The path of a key is the path of the key above with one part more, which is its name; ten digits behind a stem make
/// the path of a ledger or of a member.
pub fn paths_go_by_parents()
    ensures { PathsGoByParents }
{}

/// Where its name is a stream's, the path of a key has the form of paths and at most 65,535 bytes, and the stems have
/// room for ten digits.
pub fn paths_have_their_form()
    ensures { PathsHaveTheirForm }
{}
