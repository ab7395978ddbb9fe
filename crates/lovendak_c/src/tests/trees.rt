// Contents are built place by place, and looked into by paths.
use crate::tests::front;
use crate::tree_handle::TreeHandle;
use crate::tree_paths::{
    lovendak_tree_cap, lovendak_tree_data, lovendak_tree_kind, lovendak_tree_number,
    lovendak_tree_read, lovendak_tree_text,
};
use crate::trees::{
    lovendak_tree_free, lovendak_tree_list, lovendak_tree_new, lovendak_tree_push,
    lovendak_tree_put, lovendak_tree_set_cap, lovendak_tree_set_data, lovendak_tree_set_number,
    lovendak_tree_set_numbers, lovendak_tree_set_text, lovendak_tree_struct, lovendak_tree_structs,
    lovendak_tree_write,
};
use std::alloc::Global;

/// A struct of a data word and four pointers: to a text, to a list of numbers, to a list of structs that has one with bytes, and to a
/// list of pointers with a capability. Each call answers 0, and gives the numbers from 0 on.
fn is_built(alloc: Global, tree: &mut TreeHandle) -> bool {
    let (mut root, mut list, mut item, mut pointers) = (9, 9, 9, 9);
    lovendak_tree_struct(alloc, tree, 1, 4, &mut root) == 0
        && lovendak_tree_structs(alloc, tree, 0, 1, &mut list) == 0
        && lovendak_tree_struct(alloc, tree, 0, 1, &mut item) == 0
        && lovendak_tree_list(alloc, tree, 2, &mut pointers) == 0
        && (root, list, item, pointers) == (0, 1, 2, 3)
}

fn is_filled(alloc: Global, tree: &mut TreeHandle) -> bool {
    lovendak_tree_set_number(alloc, tree, 0, 16, 3, 65_535) == 0
        && lovendak_tree_set_number(alloc, tree, 0, 1, 1, 1) == 0
        && lovendak_tree_set_text(alloc, tree, 0, 0, b"six") == 0
        && lovendak_tree_set_numbers(alloc, tree, 0, 1, 32, &[5, 6]) == 0
        && lovendak_tree_set_data(alloc, tree, 2, 0, b"\xff\x00") == 0
        && lovendak_tree_set_cap(alloc, tree, 3, 1, 0) == 0
}

fn is_put_together(alloc: Global, tree: &mut TreeHandle) -> bool {
    lovendak_tree_push(alloc, tree, 1, 2) == 0
        && lovendak_tree_put(alloc, tree, 0, 2, 1) == 0
        && lovendak_tree_put(alloc, tree, 0, 3, 3) == 0
}

/// What is refused, with its code.
fn are_refused(alloc: Global, tree: &mut TreeHandle) -> bool {
    lovendak_tree_new(alloc, tree) == 101
        && lovendak_tree_set_number(alloc, tree, 0, 16, 4, 1) == 104
        && lovendak_tree_set_number(alloc, tree, 0, 8, 0, 256) == 105
        && lovendak_tree_set_number(alloc, tree, 0, 7, 0, 1) == 105
        && lovendak_tree_set_text(alloc, tree, 0, 0, b"\xff") == 102
        && lovendak_tree_set_cap(alloc, tree, 0, 4, 0) == 104
        && lovendak_tree_push(alloc, tree, 1, 2) == 104
        && lovendak_tree_put(alloc, tree, 0, 0, 0) == 104
}

fn has_numbers(alloc: Global, tree: &mut TreeHandle, at: u32) -> bool {
    let (mut word, mut flag, mut element) = (9, 9, 9);
    lovendak_tree_number(alloc, tree, at, &[], 64, 0, &mut word) == 0
        && lovendak_tree_number(alloc, tree, at, &[], 1, 1, &mut flag) == 0
        && lovendak_tree_number(alloc, tree, at, &[1], 32, 1, &mut element) == 0
        && (word, flag, element) == (0xffff_0000_0000_0002, 1, 6)
}

fn are(bytes: &[u8], wanted: &[u8]) -> bool {
    bytes == wanted
}

fn has_bytes(alloc: Global, tree: &mut TreeHandle, at: u32) -> bool {
    let (mut text, mut data, mut text_len, mut data_len) = ([0; 9], [0; 9], 9, 9);
    lovendak_tree_text(alloc, tree, at, &[0], &mut text, &mut text_len) == 0
        && are(front(&text, text_len), b"six")
        && lovendak_tree_data(alloc, tree, at, &[2, 0, 0], &mut data, &mut data_len) == 0
        && are(front(&data, data_len), b"\xff\x00")
}

fn has_pointers(alloc: Global, tree: &mut TreeHandle, at: u32) -> bool {
    let (mut kind, mut count, mut index) = (9, 9, 9);
    lovendak_tree_kind(alloc, tree, at, &[3], &mut kind, &mut count) == 0
        && (kind, count) == (2, 2)
        && lovendak_tree_cap(alloc, tree, at, &[3, 1], &mut index) == 0
        && index == 0
        && lovendak_tree_cap(alloc, tree, at, &[3, 0], &mut index) == 104
}

#[test]
fn trees_are_built_written_and_looked_into(rt: HostRuntime) {
    let (mut tree, mut bytes, mut len, mut read) = (TreeHandle::none(), [0; 200], 0, 9);
    let alloc = rt.alloc();
    assert!(rt; lovendak_tree_free(alloc, &mut tree) == 100);
    assert!(rt; lovendak_tree_new(alloc, &mut tree) == 0);
    assert!(rt; is_built(alloc, &mut tree) && is_filled(alloc, &mut tree));
    assert!(rt; is_put_together(alloc, &mut tree) && are_refused(alloc, &mut tree));
    assert!(rt; lovendak_tree_write(alloc, &mut tree, 0, 0, &mut bytes, &mut len) == 9);
    assert!(rt; lovendak_tree_write(alloc, &mut tree, 0, 1, &mut bytes[..99], &mut len) == 103);
    assert!(rt; len == 8 * 14);
    assert!(rt; lovendak_tree_write(alloc, &mut tree, 0, 1, &mut bytes, &mut len) == 0);
    assert!(rt; lovendak_tree_read(alloc, &mut tree, front(&bytes, len), 1, &mut read) == 0);
    assert!(rt; read == 4 && has_numbers(alloc, &mut tree, read));
    assert!(rt; has_bytes(alloc, &mut tree, read) && has_pointers(alloc, &mut tree, read));
    assert!(rt; lovendak_tree_free(alloc, &mut tree) == 0);
}
