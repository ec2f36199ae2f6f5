// What is asked of a map: its size, its number of levels, where it starts on the grid, and its filter.
#[repr(C)]
#[derive(Clone, Copy)]
pub struct Shape {
    pub width: usize,
    pub height: usize,
    pub levels: usize,
    // the coordinates of its first column and of its first row
    pub x: u16,
    pub y: u16,
    // the number of its filter: 0 the 5/3, 1 the integer 9/7
    pub filter: u32,
}
