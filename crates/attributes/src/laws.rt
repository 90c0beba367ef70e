//! What holds of attributes and changes, as contracts to cite: each function does nothing and promises one law.
ghost use Rattle.attributes.specs.Laws.{SameAttributes, SameChanges, GetInserted, EntriesMakeMap, FirstEntriesAscend, GetChanged, GetComposed, GetTransformed, GetReverted, ChangedTwice, ChangedEitherWay, ChangedBack};
ghost use Rattle.attributes.specs.TableLaws as table;

/// Attributes are told apart by what stands at their names.
pub fn same_attributes()
    ensures { SameAttributes }
{}

/// Changes are told apart by what stands at their names.
pub fn same_changes()
    ensures { SameChanges }
{}

/// What stands at a name after a value was put at one.
pub fn get_inserted()
    ensures { GetInserted }
{}

/// The entries of attributes or of a change, put into an empty one, make them again.
pub fn entries_make_map()
    ensures { EntriesMakeMap }
{}

/// The first entries of attributes or of a change are in the order of their names' bytes.
pub fn first_entries_ascend()
    ensures { FirstEntriesAscend }
{}

/// What a change leaves at a name.
pub fn get_changed()
    ensures { GetChanged }
{}

/// What two changes in one leave at a name.
pub fn get_composed()
    ensures { GetComposed }
{}

/// What a change with priority leaves of another at a name.
pub fn get_transformed()
    ensures { GetTransformed }
{}

/// What the way back has at a name.
pub fn get_reverted()
    ensures { GetReverted }
{}

/// A change after a change is one change.
pub fn changed_twice()
    ensures { ChangedTwice }
{}

/// Two changes in either order leave the same.
pub fn changed_either_way()
    ensures { ChangedEitherWay }
{}

/// A change and its way back leave everything unchanged.
pub fn changed_back()
    ensures { ChangedBack }
{}

/// Names that tie are equal, and so by the test.
pub fn same_name()
    ensures tie { table.SameName }
    ensures test { table.SameNameByTest }
{}

/// A table is told from others by what stands at each name, and this is what stands there after a change.
pub fn table_values<X>()
    ensures same { table.SameMap X }
    ensures put { table.GetPut X }
    ensures removed { table.GetRemoved X }
{}

/// The entries of a table after a change, and that they are in order.
pub fn table_entries<X>()
    ensures put { table.EntriesPut X }
    ensures removed { table.EntriesRemoved X }
    ensures ascend { table.ListAscends X }
    ensures ascend_if { table.ListAscendsIf X }
{}

/// Going over entries in order, from the first one on, to the place of a name.
pub fn table_places<X>()
    ensures here { table.HereAt X }
    ensures free { table.FreeAt X }
    ensures end { table.FreeEnd X }
    ensures more { table.BeforeMore X }
{}

/// An edit of the entries at the place of a name is that edit of the table.
pub fn table_edits<X>()
    ensures set { table.SetHere X }
    ensures removed { table.RemoveHere X }
    ensures inserted { table.InsertFree X }
    ensures absent { table.RemoveAbsent X }
    ensures written_list { table.Written X }
    ensures inserted_list { table.Inserted X }
{}
