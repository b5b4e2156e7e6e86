//! The names that have a meaning in an attribute alone.

/// The names of built-in values by their codes.
#[rattlefmt::skip]
pub static BUILT_IN_VALUES: [(u64, &str); 20] = [
    (1, "vertex_index"), (2, "instance_index"), (3, "clip_distances"), (4, "position"), (5, "front_facing"),
    (6, "frag_depth"), (7, "primitive_index"), (8, "sample_index"), (9, "sample_mask"), (10, "local_invocation_id"),
    (11, "local_invocation_index"), (12, "global_invocation_id"), (13, "global_invocation_index"),
    (14, "workgroup_id"), (15, "workgroup_index"), (16, "num_workgroups"), (17, "subgroup_invocation_id"),
    (18, "subgroup_size"), (19, "subgroup_id"), (20, "num_subgroups"),
];

/// The names of types of interpolation by their codes.
#[rattlefmt::skip]
pub static INTERPOLATION_TYPES: [(u64, &str); 3] = [
    (1, "perspective"), (2, "linear"), (3, "flat"),
];

/// The names of samplings of an interpolated value by their codes.
#[rattlefmt::skip]
pub static SAMPLINGS: [(u64, &str); 5] = [
    (1, "center"), (2, "centroid"), (3, "sample"), (4, "first"), (5, "either"),
];

/// The names of attributes by their codes.
#[rattlefmt::skip]
pub static ATTRIBUTES: [(u64, &str); 17] = [
    (1, "align"), (2, "binding"), (3, "blend_src"), (4, "builtin"), (5, "compute"), (6, "const"), (7, "diagnostic"),
    (8, "fragment"), (9, "group"), (10, "id"), (11, "interpolate"), (12, "invariant"), (13, "location"),
    (14, "must_use"), (15, "size"), (16, "vertex"), (17, "workgroup_size"),
];

/// The names of severities of diagnostics by their codes.
#[rattlefmt::skip]
pub static SEVERITIES: [(u64, &str); 4] = [
    (1, "error"), (2, "warning"), (3, "info"), (4, "off"),
];
