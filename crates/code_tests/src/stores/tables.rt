// Tables of calls with what each has to say.
//
// A table begins with what its calls are made on, and how many pages there are each time. A row has how often a call is made, its name, a number, and what is
// said. The number is how many bytes are asked for, the tag that is set, or how many bytes behind the last block an address lies, where 4294967295 is the byte
// before it.

/// The arena of one page, whose bytes are 0 at first. Regions of two pages; regions of 64 pages; and the heap of one page, which its first block takes. Keys
/// and unique blocks of one page. A key's region of 64 pages, which are all given back by a few words. Then unique blocks over a pool: regions of 64 pages,
/// with the counts of pages and of the words of headers that are touched; tags of regions of one page, where the heap has none; and freed pages of which a new
/// region has one, of three pages. Unique blocks of eight pages, in slots of the smallest class that holds them; the 128 slots of 32 bytes of one page, of
/// which the first and the last are given back; a slot that is freed at its first address, of two pages; pages that stay with their class, of two; and a
/// region beside unique blocks, of three.
pub const TABLES: &str = "\
plain 1, paged 1, blocks 1:
1 pages 0 1
1 load8 0 0
1 load8 4095 0
1 load8 4096 none
1 load8 4294967295 none
1 live 0 0
1 store8 4095 1
1 load8 4095 9
1 load8 4094 0
1 store8 4096 0
1 store8 4294967295 0

plain 2, paged 2, blocks 2:
1 region_new 0 Ok
1 region_alloc 4097 Full
1 region_alloc 4096 Ok
1 region_alloc 1 Ok
1 region_alloc 4089 Full
1 region_alloc 4080 Ok
1 region_new 0 Full
1 region_free 0 Ok
1 region_free 0 BadHandle
1 region_alloc 4097 BadHandle
1 region_new 0 Ok

plain 4, paged 4, blocks 4:
1 region_new 0 Ok
1 region_alloc 8193 Ok
1 live 8199 1
1 live 8200 0
1 live 12288 0
1 region_alloc 4096 Ok
1 region_alloc 1 Full
1 region_free 0 Ok
1 live 0 0
1 region_new 0 Ok
1 region_alloc 4097 Full
1 region_alloc 4096 Ok
1 region_alloc 1 Ok

plain 258, paged 258, blocks 258:
1 region_new 0 Ok
1 region_alloc 1048577 Full
1 region_alloc 4294967295 Full
1 region_alloc 1048576 Ok
1 live 1048575 1
1 load8 0 255
1 region_alloc 4096 Ok
1 region_alloc 1 Ok
1 region_alloc 4096 Full
1 region_free 0 Ok
1 live 0 0
1 region_alloc 4097 BadHandle
258 region_new 0 Ok
1 region_new 0 Full

plain 256, paged 256, blocks 256:
1 region_new 0 Ok
1 region_alloc 1048576 Full
1 region_alloc 1044480 Ok
1 region_alloc 4096 Ok
1 region_alloc 1 Full

plain 2, paged 2, blocks 2:
1 region_alloc 8000 Ok
1 region_alloc 4 Full

plain 3, paged 3, blocks 3:
1 region_alloc 8000 Ok
1 region_alloc 4 Ok
1 region_alloc 4088 Ok
1 region_alloc 1 Full

plain 3, paged 3, blocks 3:
1 region_new 0 Ok
1 region_alloc 4 Ok
1 region_alloc 8000 Ok
1 region_alloc 4088 Ok
1 region_alloc 4 Full

plain 5, paged 5:
1 key_new 0 Ok
1 region_alloc 8000 BadHandle
1 key_open 0 Ok
2 region_alloc 8000 Ok
1 region_alloc 4097 Full
1 key_close 0 Ok
1 key_free 0 Ok
1 key_new 0 Ok
1 key_open 0 Ok
1 region_alloc 4097 Full
5 region_alloc 4096 Ok
1 region_alloc 1 Full

blocks 6:
1 region_new 0 Ok
1 region_alloc 12000 Ok
1 free 0 2
1 fresh 0 2
1 region_free 0 Ok
1 touched 0 Ok
1 free 0 6
1 fresh 0 2
1 unique_alloc 32 Ok
1 region_new 0 Ok
1 fresh 0 2
1 region_alloc 8192 Ok
1 fresh 0 0
1 free 0 2

plain 64, paged 64, blocks 64:
1 region_new 0 Ok
60 region_alloc 4096 Ok
1 region_free 0 Ok
1 region_new 0 Ok
64 region_alloc 4096 Ok
1 region_alloc 1 Full
1 region_free 0 Ok
64 region_new 0 Ok
1 region_new 0 Full

plain 1, paged 1:
1 region_free 0 BadHandle
1 region_alloc 0 Ok
1 region_new 0 Full
1 region_alloc 4088 Ok
1 region_alloc 1 Full
1 key_open 0 BadKey

plain 1, paged 1:
1 key_new 0 Ok
1 key_new 0 Full
1 key_close 0 NotOpen
1 region_free 0 BadHandle
1 region_alloc 8 BadHandle
1 key_open 0 Ok
1 key_open 0 Open
1 key_free 0 Open
1 region_alloc 8 Ok
1 key_close 0 Ok
1 key_free 0 Ok
1 key_free 0 BadKey
1 key_open 0 BadKey
1 key_close 0 BadKey
1 unique_alloc 4097 Full
1 unique_alloc 0 Ok
1 unique_free 8 NotABlock
1 key_new 0 Full
1 unique_free 0 Ok
1 unique_free 0 NotABlock
128 unique_alloc 32 Ok
1 unique_alloc 32 Full
1 unique_alloc 33 Full

paged 64:
1 key_new 0 Ok
1 key_open 0 Ok
64 region_alloc 4096 Ok
1 region_alloc 1 Full
1 store8 4095 1
1 store8 4096 0
1 key_close 0 Ok
1 key_free 0 Ok
1 touched 0 Ok
1 load8 4095 255
1 load8 4096 none
1 region_new 0 Ok
60 region_alloc 4096 Ok
1 region_free 0 Ok
1 touched 0 Ok
64 region_new 0 Ok
1 region_new 0 Full

blocks 64:
1 free 0 64
1 region_new 0 Ok
60 region_alloc 4096 Ok
1 free 0 4
1 fresh 0 4
1 region_free 0 Ok
1 touched 0 Ok
1 free 0 64
1 fresh 0 4

blocks 1:
1 tag 0 none
1 set_tag 7 0
1 region_new 0 Ok
1 tag 0 0
1 set_tag 7 1
1 tag 0 7
1 region_free 0 Ok
1 tag 0 none
1 set_tag 7 0
1 region_new 0 Ok
1 tag 0 0

blocks 3:
1 region_new 0 Ok
2 region_alloc 4096 Ok
1 live 0 1
1 region_free 0 Ok
1 live 0 0
1 live 4294963200 0
2 region_new 0 Ok
1 live 0 0
1 live 4294963200 0
1 region_alloc 8 Ok
1 live 7 1

blocks 8:
1 unique_alloc 0 268435456
1 unique_alloc 32 268435488
1 live 0 1
1 live 31 1
1 live 32 0
1 unique_alloc 33 268439552
1 unique_alloc 4096 268443648
1 live 4095 1
1 free 0 5
1 unique_alloc 4097 Full
1 free 0 5

blocks 1:
128 unique_alloc 12 Ok
1 unique_alloc 12 Full
1 unique_free 0 Ok
1 unique_free 4294963232 Ok
1 unique_alloc 12 268435456
1 unique_alloc 12 268439520
1 unique_alloc 1 Full

blocks 2:
1 unique_free 0 NotABlock
1 unique_alloc 100 268435456
1 unique_free 8 NotABlock
1 unique_free 128 NotABlock
1 unique_free 4026531840 NotABlock
1 unique_free 4026531839 NotABlock
1 live 0 1
1 unique_free 0 Ok
1 live 0 0
1 unique_free 0 NotABlock

blocks 2:
1 unique_alloc 4096 268435456
1 unique_free 0 Ok
1 free 0 1
1 unique_alloc 32 268439552
1 unique_alloc 64 Full
1 region_new 0 Full
1 unique_alloc 3000 268435456

blocks 3:
1 region_new 0 Ok
1 region_alloc 4096 268435456
1 live 0 1
1 unique_free 0 NotABlock
1 unique_alloc 8 268439552
1 store8 0 1
1 tag 0 0
1 set_tag 5 1
1 tag 0 5
1 store8 0 1
1 region_free 0 Ok
1 touched 0 Ok
1 live 0 1
1 live 4294963200 0
1 load8 0 255
1 free 0 2
1 fresh 0 1
1 pages 0 3";
