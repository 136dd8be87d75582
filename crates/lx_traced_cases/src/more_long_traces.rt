//! The longest trace.
//! Written by `tools/example-texts` from `examples/` and `docs/MANUAL.md`.

/// The longest trace: what is run, over which files beside those of `file_table`, and what it writes.
pub fn more_long_traces_table() -> &'static str {
    r#"---- further
done 739 0.1 ring.shared ring:ring_take:73: store i8 34 at 0x3000010 (event 729+0)
done 740 0.1 ring.shared ring:ring_take:74: load i32 at 0x1000014 (ring:@ring+20) = 0
done 741 0.1 ring.shared ring:ring_take:77: store i32 1 at 0x1000014 (ring:@ring+20)
done 742 0.1 ring.shared ring:ring_take:78: load i8 at 0x3000010 (event 729+0) = 34
done 743 0.1 ring.shared ring:ring_take:80: store i32 34 at 0x300000c (event 728+0)
done 744 0.1 ring.shared ring:ring_take:84: load i32 at 0x300000c (event 728+0) = 34
done 745 0.1 ring.shared ring:ring_take:85: leaves 5 at 0x300000c
done 746 0.1 ring.shared ring:ring_sum:111: load i32 at 0x3000004 (event 229+0) = 176
done 747 0.1 ring.shared ring:ring_sum:113: store i32 210 at 0x3000004 (event 229+0)
done 748 0.1 ring.shared ring:ring_sum:117: load i32 at 0x3000008 (event 230+0) = 11
done 749 0.1 ring.shared ring:ring_sum:119: store i32 12 at 0x3000008 (event 230+0)
done 750 0.1 ring.shared ring:ring_sum:99: load i32 at 0x3000008 (event 230+0) = 12
done 751 0.1 ring.shared ring:ring_sum:100: load i32 at 0x3000000 (event 228+0) = 40
done 752 0.1 ring.shared ring:ring_sum:105: load i32 at 0x3000008 (event 230+0) = 12
done 753 0.1 ring.shared ring:ring_put:12: alloca 4 at 0x300000c
done 754 0.1 ring.shared ring:ring_put:13: alloca 1 at 0x3000010
done 755 0.1 ring.shared ring:ring_put:14: store i8 37 at 0x3000010 (event 754+0)
done 756 0.1 ring.shared ring:used:43: alloca 8 at 0x3000018
done 757 0.1 ring.shared ring:used:44: store i64 0x1000000 at 0x3000018 (event 756+0)
done 758 0.1 ring.shared ring:used:45: load i64 at 0x3000018 (event 756+0) = 0x1000000
done 759 0.1 ring.shared ring:used:47: load i32 at 0x1000010 (ring:@ring+16) = 1
done 760 0.1 ring.shared ring:used:48: load i64 at 0x3000018 (event 756+0) = 0x1000000
done 761 0.1 ring.shared ring:used:50: load i32 at 0x1000014 (ring:@ring+20) = 1
done 762 0.1 ring.shared ring:used:53: leaves 15 at 0x3000011
done 763 0.1 ring.shared ring:ring_put:24: load i8 at 0x3000010 (event 754+0) = 37
done 764 0.1 ring.shared ring:ring_put:25: load i32 at 0x1000010 (ring:@ring+16) = 1
done 765 0.1 ring.shared ring:ring_put:28: store i8 37 at 0x1000001 (ring:@ring+1)
done 766 0.1 ring.shared ring:ring_put:29: load i32 at 0x1000010 (ring:@ring+16) = 1
done 767 0.1 ring.shared ring:ring_put:32: store i32 2 at 0x1000010 (ring:@ring+16)
done 768 0.1 ring.shared ring:ring_put:33: store i32 0 at 0x300000c (event 753+0)
done 769 0.1 ring.shared ring:ring_put:37: load i32 at 0x300000c (event 753+0) = 0
done 770 0.1 ring.shared ring:ring_put:38: leaves 5 at 0x300000c
done 771 0.1 ring.shared ring:ring_take:58: alloca 4 at 0x300000c
done 772 0.1 ring.shared ring:ring_take:59: alloca 1 at 0x3000010
done 773 0.1 ring.shared ring:used:43: alloca 8 at 0x3000018
done 774 0.1 ring.shared ring:used:44: store i64 0x1000000 at 0x3000018 (event 773+0)
done 775 0.1 ring.shared ring:used:45: load i64 at 0x3000018 (event 773+0) = 0x1000000
done 776 0.1 ring.shared ring:used:47: load i32 at 0x1000010 (ring:@ring+16) = 2
done 777 0.1 ring.shared ring:used:48: load i64 at 0x3000018 (event 773+0) = 0x1000000
done 778 0.1 ring.shared ring:used:50: load i32 at 0x1000014 (ring:@ring+20) = 1
done 779 0.1 ring.shared ring:used:53: leaves 15 at 0x3000011
done 780 0.1 ring.shared ring:ring_take:69: load i32 at 0x1000014 (ring:@ring+20) = 1
done 781 0.1 ring.shared ring:ring_take:72: load i8 at 0x1000001 (ring:@ring+1) = 37
done 782 0.1 ring.shared ring:ring_take:73: store i8 37 at 0x3000010 (event 772+0)
done 783 0.1 ring.shared ring:ring_take:74: load i32 at 0x1000014 (ring:@ring+20) = 1
done 784 0.1 ring.shared ring:ring_take:77: store i32 2 at 0x1000014 (ring:@ring+20)
done 785 0.1 ring.shared ring:ring_take:78: load i8 at 0x3000010 (event 772+0) = 37
done 786 0.1 ring.shared ring:ring_take:80: store i32 37 at 0x300000c (event 771+0)
done 787 0.1 ring.shared ring:ring_take:84: load i32 at 0x300000c (event 771+0) = 37
done 788 0.1 ring.shared ring:ring_take:85: leaves 5 at 0x300000c
done 789 0.1 ring.shared ring:ring_sum:111: load i32 at 0x3000004 (event 229+0) = 210
done 790 0.1 ring.shared ring:ring_sum:113: store i32 247 at 0x3000004 (event 229+0)
done 791 0.1 ring.shared ring:ring_sum:117: load i32 at 0x3000008 (event 230+0) = 12
done 792 0.1 ring.shared ring:ring_sum:119: store i32 13 at 0x3000008 (event 230+0)
done 793 0.1 ring.shared ring:ring_sum:99: load i32 at 0x3000008 (event 230+0) = 13
done 794 0.1 ring.shared ring:ring_sum:100: load i32 at 0x3000000 (event 228+0) = 40
done 795 0.1 ring.shared ring:ring_sum:105: load i32 at 0x3000008 (event 230+0) = 13
done 796 0.1 ring.shared ring:ring_put:12: alloca 4 at 0x300000c
done 797 0.1 ring.shared ring:ring_put:13: alloca 1 at 0x3000010
done 798 0.1 ring.shared ring:ring_put:14: store i8 40 at 0x3000010 (event 797+0)
done 799 0.1 ring.shared ring:used:43: alloca 8 at 0x3000018
done 800 0.1 ring.shared ring:used:44: store i64 0x1000000 at 0x3000018 (event 799+0)
done 801 0.1 ring.shared ring:used:45: load i64 at 0x3000018 (event 799+0) = 0x1000000
done 802 0.1 ring.shared ring:used:47: load i32 at 0x1000010 (ring:@ring+16) = 2
done 803 0.1 ring.shared ring:used:48: load i64 at 0x3000018 (event 799+0) = 0x1000000
done 804 0.1 ring.shared ring:used:50: load i32 at 0x1000014 (ring:@ring+20) = 2
done 805 0.1 ring.shared ring:used:53: leaves 15 at 0x3000011
done 806 0.1 ring.shared ring:ring_put:24: load i8 at 0x3000010 (event 797+0) = 40
done 807 0.1 ring.shared ring:ring_put:25: load i32 at 0x1000010 (ring:@ring+16) = 2
done 808 0.1 ring.shared ring:ring_put:28: store i8 40 at 0x1000002 (ring:@ring+2)
done 809 0.1 ring.shared ring:ring_put:29: load i32 at 0x1000010 (ring:@ring+16) = 2
done 810 0.1 ring.shared ring:ring_put:32: store i32 3 at 0x1000010 (ring:@ring+16)
done 811 0.1 ring.shared ring:ring_put:33: store i32 0 at 0x300000c (event 796+0)
done 812 0.1 ring.shared ring:ring_put:37: load i32 at 0x300000c (event 796+0) = 0
done 813 0.1 ring.shared ring:ring_put:38: leaves 5 at 0x300000c
done 814 0.1 ring.shared ring:ring_take:58: alloca 4 at 0x300000c
done 815 0.1 ring.shared ring:ring_take:59: alloca 1 at 0x3000010
done 816 0.1 ring.shared ring:used:43: alloca 8 at 0x3000018
done 817 0.1 ring.shared ring:used:44: store i64 0x1000000 at 0x3000018 (event 816+0)
done 818 0.1 ring.shared ring:used:45: load i64 at 0x3000018 (event 816+0) = 0x1000000
done 819 0.1 ring.shared ring:used:47: load i32 at 0x1000010 (ring:@ring+16) = 3
done 820 0.1 ring.shared ring:used:48: load i64 at 0x3000018 (event 816+0) = 0x1000000
done 821 0.1 ring.shared ring:used:50: load i32 at 0x1000014 (ring:@ring+20) = 2
done 822 0.1 ring.shared ring:used:53: leaves 15 at 0x3000011
done 823 0.1 ring.shared ring:ring_take:69: load i32 at 0x1000014 (ring:@ring+20) = 2
done 824 0.1 ring.shared ring:ring_take:72: load i8 at 0x1000002 (ring:@ring+2) = 40
done 825 0.1 ring.shared ring:ring_take:73: store i8 40 at 0x3000010 (event 815+0)
done 826 0.1 ring.shared ring:ring_take:74: load i32 at 0x1000014 (ring:@ring+20) = 2
done 827 0.1 ring.shared ring:ring_take:77: store i32 3 at 0x1000014 (ring:@ring+20)
done 828 0.1 ring.shared ring:ring_take:78: load i8 at 0x3000010 (event 815+0) = 40
done 829 0.1 ring.shared ring:ring_take:80: store i32 40 at 0x300000c (event 814+0)
done 830 0.1 ring.shared ring:ring_take:84: load i32 at 0x300000c (event 814+0) = 40
done 831 0.1 ring.shared ring:ring_take:85: leaves 5 at 0x300000c
done 832 0.1 ring.shared ring:ring_sum:111: load i32 at 0x3000004 (event 229+0) = 247
done 833 0.1 ring.shared ring:ring_sum:113: store i32 287 at 0x3000004 (event 229+0)
done 834 0.1 ring.shared ring:ring_sum:117: load i32 at 0x3000008 (event 230+0) = 13
done 835 0.1 ring.shared ring:ring_sum:119: store i32 14 at 0x3000008 (event 230+0)
done 836 0.1 ring.shared ring:ring_sum:99: load i32 at 0x3000008 (event 230+0) = 14
done 837 0.1 ring.shared ring:ring_sum:100: load i32 at 0x3000000 (event 228+0) = 40
done 838 0.1 ring.shared ring:ring_sum:105: load i32 at 0x3000008 (event 230+0) = 14
done 839 0.1 ring.shared ring:ring_put:12: alloca 4 at 0x300000c
done 840 0.1 ring.shared ring:ring_put:13: alloca 1 at 0x3000010
done 841 0.1 ring.shared ring:ring_put:14: store i8 43 at 0x3000010 (event 840+0)
done 842 0.1 ring.shared ring:used:43: alloca 8 at 0x3000018
done 843 0.1 ring.shared ring:used:44: store i64 0x1000000 at 0x3000018 (event 842+0)
done 844 0.1 ring.shared ring:used:45: load i64 at 0x3000018 (event 842+0) = 0x1000000
done 845 0.1 ring.shared ring:used:47: load i32 at 0x1000010 (ring:@ring+16) = 3
done 846 0.1 ring.shared ring:used:48: load i64 at 0x3000018 (event 842+0) = 0x1000000
done 847 0.1 ring.shared ring:used:50: load i32 at 0x1000014 (ring:@ring+20) = 3
done 848 0.1 ring.shared ring:used:53: leaves 15 at 0x3000011
done 849 0.1 ring.shared ring:ring_put:24: load i8 at 0x3000010 (event 840+0) = 43
done 850 0.1 ring.shared ring:ring_put:25: load i32 at 0x1000010 (ring:@ring+16) = 3
done 851 0.1 ring.shared ring:ring_put:28: store i8 43 at 0x1000003 (ring:@ring+3)
done 852 0.1 ring.shared ring:ring_put:29: load i32 at 0x1000010 (ring:@ring+16) = 3
done 853 0.1 ring.shared ring:ring_put:32: store i32 4 at 0x1000010 (ring:@ring+16)
done 854 0.1 ring.shared ring:ring_put:33: store i32 0 at 0x300000c (event 839+0)
done 855 0.1 ring.shared ring:ring_put:37: load i32 at 0x300000c (event 839+0) = 0
done 856 0.1 ring.shared ring:ring_put:38: leaves 5 at 0x300000c
done 857 0.1 ring.shared ring:ring_take:58: alloca 4 at 0x300000c
done 858 0.1 ring.shared ring:ring_take:59: alloca 1 at 0x3000010
done 859 0.1 ring.shared ring:used:43: alloca 8 at 0x3000018
done 860 0.1 ring.shared ring:used:44: store i64 0x1000000 at 0x3000018 (event 859+0)
done 861 0.1 ring.shared ring:used:45: load i64 at 0x3000018 (event 859+0) = 0x1000000
done 862 0.1 ring.shared ring:used:47: load i32 at 0x1000010 (ring:@ring+16) = 4
done 863 0.1 ring.shared ring:used:48: load i64 at 0x3000018 (event 859+0) = 0x1000000
done 864 0.1 ring.shared ring:used:50: load i32 at 0x1000014 (ring:@ring+20) = 3
done 865 0.1 ring.shared ring:used:53: leaves 15 at 0x3000011
done 866 0.1 ring.shared ring:ring_take:69: load i32 at 0x1000014 (ring:@ring+20) = 3
done 867 0.1 ring.shared ring:ring_take:72: load i8 at 0x1000003 (ring:@ring+3) = 43
done 868 0.1 ring.shared ring:ring_take:73: store i8 43 at 0x3000010 (event 858+0)
done 869 0.1 ring.shared ring:ring_take:74: load i32 at 0x1000014 (ring:@ring+20) = 3
done 870 0.1 ring.shared ring:ring_take:77: store i32 4 at 0x1000014 (ring:@ring+20)
done 871 0.1 ring.shared ring:ring_take:78: load i8 at 0x3000010 (event 858+0) = 43
done 872 0.1 ring.shared ring:ring_take:80: store i32 43 at 0x300000c (event 857+0)
done 873 0.1 ring.shared ring:ring_take:84: load i32 at 0x300000c (event 857+0) = 43
done 874 0.1 ring.shared ring:ring_take:85: leaves 5 at 0x300000c
done 875 0.1 ring.shared ring:ring_sum:111: load i32 at 0x3000004 (event 229+0) = 287
done 876 0.1 ring.shared ring:ring_sum:113: store i32 330 at 0x3000004 (event 229+0)
done 877 0.1 ring.shared ring:ring_sum:117: load i32 at 0x3000008 (event 230+0) = 14
done 878 0.1 ring.shared ring:ring_sum:119: store i32 15 at 0x3000008 (event 230+0)
done 879 0.1 ring.shared ring:ring_sum:99: load i32 at 0x3000008 (event 230+0) = 15
done 880 0.1 ring.shared ring:ring_sum:100: load i32 at 0x3000000 (event 228+0) = 40
done 881 0.1 ring.shared ring:ring_sum:105: load i32 at 0x3000008 (event 230+0) = 15
done 882 0.1 ring.shared ring:ring_put:12: alloca 4 at 0x300000c
done 883 0.1 ring.shared ring:ring_put:13: alloca 1 at 0x3000010
done 884 0.1 ring.shared ring:ring_put:14: store i8 46 at 0x3000010 (event 883+0)
done 885 0.1 ring.shared ring:used:43: alloca 8 at 0x3000018
done 886 0.1 ring.shared ring:used:44: store i64 0x1000000 at 0x3000018 (event 885+0)
done 887 0.1 ring.shared ring:used:45: load i64 at 0x3000018 (event 885+0) = 0x1000000
done 888 0.1 ring.shared ring:used:47: load i32 at 0x1000010 (ring:@ring+16) = 4
done 889 0.1 ring.shared ring:used:48: load i64 at 0x3000018 (event 885+0) = 0x1000000
done 890 0.1 ring.shared ring:used:50: load i32 at 0x1000014 (ring:@ring+20) = 4
done 891 0.1 ring.shared ring:used:53: leaves 15 at 0x3000011
done 892 0.1 ring.shared ring:ring_put:24: load i8 at 0x3000010 (event 883+0) = 46
done 893 0.1 ring.shared ring:ring_put:25: load i32 at 0x1000010 (ring:@ring+16) = 4
done 894 0.1 ring.shared ring:ring_put:28: store i8 46 at 0x1000004 (ring:@ring+4)
done 895 0.1 ring.shared ring:ring_put:29: load i32 at 0x1000010 (ring:@ring+16) = 4
done 896 0.1 ring.shared ring:ring_put:32: store i32 5 at 0x1000010 (ring:@ring+16)
done 897 0.1 ring.shared ring:ring_put:33: store i32 0 at 0x300000c (event 882+0)
done 898 0.1 ring.shared ring:ring_put:37: load i32 at 0x300000c (event 882+0) = 0
done 899 0.1 ring.shared ring:ring_put:38: leaves 5 at 0x300000c
done 900 0.1 ring.shared ring:ring_take:58: alloca 4 at 0x300000c
done 901 0.1 ring.shared ring:ring_take:59: alloca 1 at 0x3000010
done 902 0.1 ring.shared ring:used:43: alloca 8 at 0x3000018
done 903 0.1 ring.shared ring:used:44: store i64 0x1000000 at 0x3000018 (event 902+0)
done 904 0.1 ring.shared ring:used:45: load i64 at 0x3000018 (event 902+0) = 0x1000000
done 905 0.1 ring.shared ring:used:47: load i32 at 0x1000010 (ring:@ring+16) = 5
done 906 0.1 ring.shared ring:used:48: load i64 at 0x3000018 (event 902+0) = 0x1000000
done 907 0.1 ring.shared ring:used:50: load i32 at 0x1000014 (ring:@ring+20) = 4
done 908 0.1 ring.shared ring:used:53: leaves 15 at 0x3000011
done 909 0.1 ring.shared ring:ring_take:69: load i32 at 0x1000014 (ring:@ring+20) = 4
done 910 0.1 ring.shared ring:ring_take:72: load i8 at 0x1000004 (ring:@ring+4) = 46
done 911 0.1 ring.shared ring:ring_take:73: store i8 46 at 0x3000010 (event 901+0)
done 912 0.1 ring.shared ring:ring_take:74: load i32 at 0x1000014 (ring:@ring+20) = 4
done 913 0.1 ring.shared ring:ring_take:77: store i32 5 at 0x1000014 (ring:@ring+20)
done 914 0.1 ring.shared ring:ring_take:78: load i8 at 0x3000010 (event 901+0) = 46
done 915 0.1 ring.shared ring:ring_take:80: store i32 46 at 0x300000c (event 900+0)
done 916 0.1 ring.shared ring:ring_take:84: load i32 at 0x300000c (event 900+0) = 46
done 917 0.1 ring.shared ring:ring_take:85: leaves 5 at 0x300000c
done 918 0.1 ring.shared ring:ring_sum:111: load i32 at 0x3000004 (event 229+0) = 330
done 919 0.1 ring.shared ring:ring_sum:113: store i32 376 at 0x3000004 (event 229+0)
done 920 0.1 ring.shared ring:ring_sum:117: load i32 at 0x3000008 (event 230+0) = 15
done 921 0.1 ring.shared ring:ring_sum:119: store i32 16 at 0x3000008 (event 230+0)
done 922 0.1 ring.shared ring:ring_sum:99: load i32 at 0x3000008 (event 230+0) = 16
done 923 0.1 ring.shared ring:ring_sum:100: load i32 at 0x3000000 (event 228+0) = 40
done 924 0.1 ring.shared ring:ring_sum:105: load i32 at 0x3000008 (event 230+0) = 16
done 925 0.1 ring.shared ring:ring_put:12: alloca 4 at 0x300000c
done 926 0.1 ring.shared ring:ring_put:13: alloca 1 at 0x3000010
done 927 0.1 ring.shared ring:ring_put:14: store i8 49 at 0x3000010 (event 926+0)
done 928 0.1 ring.shared ring:used:43: alloca 8 at 0x3000018
done 929 0.1 ring.shared ring:used:44: store i64 0x1000000 at 0x3000018 (event 928+0)
done 930 0.1 ring.shared ring:used:45: load i64 at 0x3000018 (event 928+0) = 0x1000000
done 931 0.1 ring.shared ring:used:47: load i32 at 0x1000010 (ring:@ring+16) = 5
done 932 0.1 ring.shared ring:used:48: load i64 at 0x3000018 (event 928+0) = 0x1000000
done 933 0.1 ring.shared ring:used:50: load i32 at 0x1000014 (ring:@ring+20) = 5
done 934 0.1 ring.shared ring:used:53: leaves 15 at 0x3000011
done 935 0.1 ring.shared ring:ring_put:24: load i8 at 0x3000010 (event 926+0) = 49
done 936 0.1 ring.shared ring:ring_put:25: load i32 at 0x1000010 (ring:@ring+16) = 5
done 937 0.1 ring.shared ring:ring_put:28: store i8 49 at 0x1000005 (ring:@ring+5)
done 938 0.1 ring.shared ring:ring_put:29: load i32 at 0x1000010 (ring:@ring+16) = 5
done 939 0.1 ring.shared ring:ring_put:32: store i32 6 at 0x1000010 (ring:@ring+16)
done 940 0.1 ring.shared ring:ring_put:33: store i32 0 at 0x300000c (event 925+0)
done 941 0.1 ring.shared ring:ring_put:37: load i32 at 0x300000c (event 925+0) = 0
done 942 0.1 ring.shared ring:ring_put:38: leaves 5 at 0x300000c
done 943 0.1 ring.shared ring:ring_take:58: alloca 4 at 0x300000c
done 944 0.1 ring.shared ring:ring_take:59: alloca 1 at 0x3000010
done 945 0.1 ring.shared ring:used:43: alloca 8 at 0x3000018
done 946 0.1 ring.shared ring:used:44: store i64 0x1000000 at 0x3000018 (event 945+0)
done 947 0.1 ring.shared ring:used:45: load i64 at 0x3000018 (event 945+0) = 0x1000000
done 948 0.1 ring.shared ring:used:47: load i32 at 0x1000010 (ring:@ring+16) = 6
done 949 0.1 ring.shared ring:used:48: load i64 at 0x3000018 (event 945+0) = 0x1000000
done 950 0.1 ring.shared ring:used:50: load i32 at 0x1000014 (ring:@ring+20) = 5
done 951 0.1 ring.shared ring:used:53: leaves 15 at 0x3000011
done 952 0.1 ring.shared ring:ring_take:69: load i32 at 0x1000014 (ring:@ring+20) = 5
done 953 0.1 ring.shared ring:ring_take:72: load i8 at 0x1000005 (ring:@ring+5) = 49
done 954 0.1 ring.shared ring:ring_take:73: store i8 49 at 0x3000010 (event 944+0)
done 955 0.1 ring.shared ring:ring_take:74: load i32 at 0x1000014 (ring:@ring+20) = 5
done 956 0.1 ring.shared ring:ring_take:77: store i32 6 at 0x1000014 (ring:@ring+20)
done 957 0.1 ring.shared ring:ring_take:78: load i8 at 0x3000010 (event 944+0) = 49
done 958 0.1 ring.shared ring:ring_take:80: store i32 49 at 0x300000c (event 943+0)
done 959 0.1 ring.shared ring:ring_take:84: load i32 at 0x300000c (event 943+0) = 49
done 960 0.1 ring.shared ring:ring_take:85: leaves 5 at 0x300000c
done 961 0.1 ring.shared ring:ring_sum:111: load i32 at 0x3000004 (event 229+0) = 376
done 962 0.1 ring.shared ring:ring_sum:113: store i32 425 at 0x3000004 (event 229+0)
done 963 0.1 ring.shared ring:ring_sum:117: load i32 at 0x3000008 (event 230+0) = 16
done 964 0.1 ring.shared ring:ring_sum:119: store i32 17 at 0x3000008 (event 230+0)
done 965 0.1 ring.shared ring:ring_sum:99: load i32 at 0x3000008 (event 230+0) = 17
done 966 0.1 ring.shared ring:ring_sum:100: load i32 at 0x3000000 (event 228+0) = 40
done 967 0.1 ring.shared ring:ring_sum:105: load i32 at 0x3000008 (event 230+0) = 17
done 968 0.1 ring.shared ring:ring_put:12: alloca 4 at 0x300000c
done 969 0.1 ring.shared ring:ring_put:13: alloca 1 at 0x3000010
done 970 0.1 ring.shared ring:ring_put:14: store i8 52 at 0x3000010 (event 969+0)
done 971 0.1 ring.shared ring:used:43: alloca 8 at 0x3000018
done 972 0.1 ring.shared ring:used:44: store i64 0x1000000 at 0x3000018 (event 971+0)
done 973 0.1 ring.shared ring:used:45: load i64 at 0x3000018 (event 971+0) = 0x1000000
done 974 0.1 ring.shared ring:used:47: load i32 at 0x1000010 (ring:@ring+16) = 6
done 975 0.1 ring.shared ring:used:48: load i64 at 0x3000018 (event 971+0) = 0x1000000
done 976 0.1 ring.shared ring:used:50: load i32 at 0x1000014 (ring:@ring+20) = 6
done 977 0.1 ring.shared ring:used:53: leaves 15 at 0x3000011
done 978 0.1 ring.shared ring:ring_put:24: load i8 at 0x3000010 (event 969+0) = 52
done 979 0.1 ring.shared ring:ring_put:25: load i32 at 0x1000010 (ring:@ring+16) = 6
done 980 0.1 ring.shared ring:ring_put:28: store i8 52 at 0x1000006 (ring:@ring+6)
done 981 0.1 ring.shared ring:ring_put:29: load i32 at 0x1000010 (ring:@ring+16) = 6
done 982 0.1 ring.shared ring:ring_put:32: store i32 7 at 0x1000010 (ring:@ring+16)
done 983 0.1 ring.shared ring:ring_put:33: store i32 0 at 0x300000c (event 968+0)
done 984 0.1 ring.shared ring:ring_put:37: load i32 at 0x300000c (event 968+0) = 0
done 985 0.1 ring.shared ring:ring_put:38: leaves 5 at 0x300000c
done 986 0.1 ring.shared ring:ring_take:58: alloca 4 at 0x300000c
done 987 0.1 ring.shared ring:ring_take:59: alloca 1 at 0x3000010
done 988 0.1 ring.shared ring:used:43: alloca 8 at 0x3000018
done 989 0.1 ring.shared ring:used:44: store i64 0x1000000 at 0x3000018 (event 988+0)
done 990 0.1 ring.shared ring:used:45: load i64 at 0x3000018 (event 988+0) = 0x1000000
done 991 0.1 ring.shared ring:used:47: load i32 at 0x1000010 (ring:@ring+16) = 7
done 992 0.1 ring.shared ring:used:48: load i64 at 0x3000018 (event 988+0) = 0x1000000
done 993 0.1 ring.shared ring:used:50: load i32 at 0x1000014 (ring:@ring+20) = 6
done 994 0.1 ring.shared ring:used:53: leaves 15 at 0x3000011
done 995 0.1 ring.shared ring:ring_take:69: load i32 at 0x1000014 (ring:@ring+20) = 6
done 996 0.1 ring.shared ring:ring_take:72: load i8 at 0x1000006 (ring:@ring+6) = 52
done 997 0.1 ring.shared ring:ring_take:73: store i8 52 at 0x3000010 (event 987+0)
done 998 0.1 ring.shared ring:ring_take:74: load i32 at 0x1000014 (ring:@ring+20) = 6
done 999 0.1 ring.shared ring:ring_take:77: store i32 7 at 0x1000014 (ring:@ring+20)
done 1000 0.1 ring.shared ring:ring_take:78: load i8 at 0x3000010 (event 987+0) = 52
done 1001 0.1 ring.shared ring:ring_take:80: store i32 52 at 0x300000c (event 986+0)
done 1002 0.1 ring.shared ring:ring_take:84: load i32 at 0x300000c (event 986+0) = 52
done 1003 0.1 ring.shared ring:ring_take:85: leaves 5 at 0x300000c
done 1004 0.1 ring.shared ring:ring_sum:111: load i32 at 0x3000004 (event 229+0) = 425
done 1005 0.1 ring.shared ring:ring_sum:113: store i32 477 at 0x3000004 (event 229+0)
done 1006 0.1 ring.shared ring:ring_sum:117: load i32 at 0x3000008 (event 230+0) = 17
done 1007 0.1 ring.shared ring:ring_sum:119: store i32 18 at 0x3000008 (event 230+0)
done 1008 0.1 ring.shared ring:ring_sum:99: load i32 at 0x3000008 (event 230+0) = 18
done 1009 0.1 ring.shared ring:ring_sum:100: load i32 at 0x3000000 (event 228+0) = 40
done 1010 0.1 ring.shared ring:ring_sum:105: load i32 at 0x3000008 (event 230+0) = 18
done 1011 0.1 ring.shared ring:ring_put:12: alloca 4 at 0x300000c
done 1012 0.1 ring.shared ring:ring_put:13: alloca 1 at 0x3000010
done 1013 0.1 ring.shared ring:ring_put:14: store i8 55 at 0x3000010 (event 1012+0)
done 1014 0.1 ring.shared ring:used:43: alloca 8 at 0x3000018
done 1015 0.1 ring.shared ring:used:44: store i64 0x1000000 at 0x3000018 (event 1014+0)
done 1016 0.1 ring.shared ring:used:45: load i64 at 0x3000018 (event 1014+0) = 0x1000000
done 1017 0.1 ring.shared ring:used:47: load i32 at 0x1000010 (ring:@ring+16) = 7
done 1018 0.1 ring.shared ring:used:48: load i64 at 0x3000018 (event 1014+0) = 0x1000000
done 1019 0.1 ring.shared ring:used:50: load i32 at 0x1000014 (ring:@ring+20) = 7
done 1020 0.1 ring.shared ring:used:53: leaves 15 at 0x3000011
done 1021 0.1 ring.shared ring:ring_put:24: load i8 at 0x3000010 (event 1012+0) = 55
done 1022 0.1 ring.shared ring:ring_put:25: load i32 at 0x1000010 (ring:@ring+16) = 7
done 1023 0.1 ring.shared ring:ring_put:28: store i8 55 at 0x1000007 (ring:@ring+7)
done 1024 0.1 ring.shared ring:ring_put:29: load i32 at 0x1000010 (ring:@ring+16) = 7
done 1025 0.1 ring.shared ring:ring_put:32: store i32 8 at 0x1000010 (ring:@ring+16)
done 1026 0.1 ring.shared ring:ring_put:33: store i32 0 at 0x300000c (event 1011+0)
done 1027 0.1 ring.shared ring:ring_put:37: load i32 at 0x300000c (event 1011+0) = 0
done 1028 0.1 ring.shared ring:ring_put:38: leaves 5 at 0x300000c
done 1029 0.1 ring.shared ring:ring_take:58: alloca 4 at 0x300000c
done 1030 0.1 ring.shared ring:ring_take:59: alloca 1 at 0x3000010
done 1031 0.1 ring.shared ring:used:43: alloca 8 at 0x3000018
done 1032 0.1 ring.shared ring:used:44: store i64 0x1000000 at 0x3000018 (event 1031+0)
done 1033 0.1 ring.shared ring:used:45: load i64 at 0x3000018 (event 1031+0) = 0x1000000
done 1034 0.1 ring.shared ring:used:47: load i32 at 0x1000010 (ring:@ring+16) = 8
done 1035 0.1 ring.shared ring:used:48: load i64 at 0x3000018 (event 1031+0) = 0x1000000
done 1036 0.1 ring.shared ring:used:50: load i32 at 0x1000014 (ring:@ring+20) = 7
done 1037 0.1 ring.shared ring:used:53: leaves 15 at 0x3000011
done 1038 0.1 ring.shared ring:ring_take:69: load i32 at 0x1000014 (ring:@ring+20) = 7
done 1039 0.1 ring.shared ring:ring_take:72: load i8 at 0x1000007 (ring:@ring+7) = 55
done 1040 0.1 ring.shared ring:ring_take:73: store i8 55 at 0x3000010 (event 1030+0)
done 1041 0.1 ring.shared ring:ring_take:74: load i32 at 0x1000014 (ring:@ring+20) = 7
done 1042 0.1 ring.shared ring:ring_take:77: store i32 8 at 0x1000014 (ring:@ring+20)
done 1043 0.1 ring.shared ring:ring_take:78: load i8 at 0x3000010 (event 1030+0) = 55
done 1044 0.1 ring.shared ring:ring_take:80: store i32 55 at 0x300000c (event 1029+0)
done 1045 0.1 ring.shared ring:ring_take:84: load i32 at 0x300000c (event 1029+0) = 55
done 1046 0.1 ring.shared ring:ring_take:85: leaves 5 at 0x300000c
done 1047 0.1 ring.shared ring:ring_sum:111: load i32 at 0x3000004 (event 229+0) = 477
done 1048 0.1 ring.shared ring:ring_sum:113: store i32 532 at 0x3000004 (event 229+0)
done 1049 0.1 ring.shared ring:ring_sum:117: load i32 at 0x3000008 (event 230+0) = 18
done 1050 0.1 ring.shared ring:ring_sum:119: store i32 19 at 0x3000008 (event 230+0)
done 1051 0.1 ring.shared ring:ring_sum:99: load i32 at 0x3000008 (event 230+0) = 19
done 1052 0.1 ring.shared ring:ring_sum:100: load i32 at 0x3000000 (event 228+0) = 40
done 1053 0.1 ring.shared ring:ring_sum:105: load i32 at 0x3000008 (event 230+0) = 19
done 1054 0.1 ring.shared ring:ring_put:12: alloca 4 at 0x300000c
done 1055 0.1 ring.shared ring:ring_put:13: alloca 1 at 0x3000010
done 1056 0.1 ring.shared ring:ring_put:14: store i8 58 at 0x3000010 (event 1055+0)
done 1057 0.1 ring.shared ring:used:43: alloca 8 at 0x3000018
done 1058 0.1 ring.shared ring:used:44: store i64 0x1000000 at 0x3000018 (event 1057+0)
done 1059 0.1 ring.shared ring:used:45: load i64 at 0x3000018 (event 1057+0) = 0x1000000
done 1060 0.1 ring.shared ring:used:47: load i32 at 0x1000010 (ring:@ring+16) = 8
done 1061 0.1 ring.shared ring:used:48: load i64 at 0x3000018 (event 1057+0) = 0x1000000
done 1062 0.1 ring.shared ring:used:50: load i32 at 0x1000014 (ring:@ring+20) = 8
done 1063 0.1 ring.shared ring:used:53: leaves 15 at 0x3000011
done 1064 0.1 ring.shared ring:ring_put:24: load i8 at 0x3000010 (event 1055+0) = 58
done 1065 0.1 ring.shared ring:ring_put:25: load i32 at 0x1000010 (ring:@ring+16) = 8
done 1066 0.1 ring.shared ring:ring_put:28: store i8 58 at 0x1000008 (ring:@ring+8)
done 1067 0.1 ring.shared ring:ring_put:29: load i32 at 0x1000010 (ring:@ring+16) = 8
done 1068 0.1 ring.shared ring:ring_put:32: store i32 9 at 0x1000010 (ring:@ring+16)
done 1069 0.1 ring.shared ring:ring_put:33: store i32 0 at 0x300000c (event 1054+0)
done 1070 0.1 ring.shared ring:ring_put:37: load i32 at 0x300000c (event 1054+0) = 0
done 1071 0.1 ring.shared ring:ring_put:38: leaves 5 at 0x300000c
done 1072 0.1 ring.shared ring:ring_take:58: alloca 4 at 0x300000c
done 1073 0.1 ring.shared ring:ring_take:59: alloca 1 at 0x3000010
done 1074 0.1 ring.shared ring:used:43: alloca 8 at 0x3000018
done 1075 0.1 ring.shared ring:used:44: store i64 0x1000000 at 0x3000018 (event 1074+0)
done 1076 0.1 ring.shared ring:used:45: load i64 at 0x3000018 (event 1074+0) = 0x1000000
done 1077 0.1 ring.shared ring:used:47: load i32 at 0x1000010 (ring:@ring+16) = 9
done 1078 0.1 ring.shared ring:used:48: load i64 at 0x3000018 (event 1074+0) = 0x1000000
done 1079 0.1 ring.shared ring:used:50: load i32 at 0x1000014 (ring:@ring+20) = 8
done 1080 0.1 ring.shared ring:used:53: leaves 15 at 0x3000011
done 1081 0.1 ring.shared ring:ring_take:69: load i32 at 0x1000014 (ring:@ring+20) = 8
done 1082 0.1 ring.shared ring:ring_take:72: load i8 at 0x1000008 (ring:@ring+8) = 58
done 1083 0.1 ring.shared ring:ring_take:73: store i8 58 at 0x3000010 (event 1073+0)
done 1084 0.1 ring.shared ring:ring_take:74: load i32 at 0x1000014 (ring:@ring+20) = 8
done 1085 0.1 ring.shared ring:ring_take:77: store i32 9 at 0x1000014 (ring:@ring+20)
done 1086 0.1 ring.shared ring:ring_take:78: load i8 at 0x3000010 (event 1073+0) = 58
done 1087 0.1 ring.shared ring:ring_take:80: store i32 58 at 0x300000c (event 1072+0)
done 1088 0.1 ring.shared ring:ring_take:84: load i32 at 0x300000c (event 1072+0) = 58
done 1089 0.1 ring.shared ring:ring_take:85: leaves 5 at 0x300000c
done 1090 0.1 ring.shared ring:ring_sum:111: load i32 at 0x3000004 (event 229+0) = 532
done 1091 0.1 ring.shared ring:ring_sum:113: store i32 590 at 0x3000004 (event 229+0)
done 1092 0.1 ring.shared ring:ring_sum:117: load i32 at 0x3000008 (event 230+0) = 19
done 1093 0.1 ring.shared ring:ring_sum:119: store i32 20 at 0x3000008 (event 230+0)
done 1094 0.1 ring.shared ring:ring_sum:99: load i32 at 0x3000008 (event 230+0) = 20
done 1095 0.1 ring.shared ring:ring_sum:100: load i32 at 0x3000000 (event 228+0) = 40
done 1096 0.1 ring.shared ring:ring_sum:105: load i32 at 0x3000008 (event 230+0) = 20
done 1097 0.1 ring.shared ring:ring_put:12: alloca 4 at 0x300000c
done 1098 0.1 ring.shared ring:ring_put:13: alloca 1 at 0x3000010
done 1099 0.1 ring.shared ring:ring_put:14: store i8 61 at 0x3000010 (event 1098+0)
done 1100 0.1 ring.shared ring:used:43: alloca 8 at 0x3000018
done 1101 0.1 ring.shared ring:used:44: store i64 0x1000000 at 0x3000018 (event 1100+0)
done 1102 0.1 ring.shared ring:used:45: load i64 at 0x3000018 (event 1100+0) = 0x1000000
done 1103 0.1 ring.shared ring:used:47: load i32 at 0x1000010 (ring:@ring+16) = 9
done 1104 0.1 ring.shared ring:used:48: load i64 at 0x3000018 (event 1100+0) = 0x1000000
done 1105 0.1 ring.shared ring:used:50: load i32 at 0x1000014 (ring:@ring+20) = 9
done 1106 0.1 ring.shared ring:used:53: leaves 15 at 0x3000011
done 1107 0.1 ring.shared ring:ring_put:24: load i8 at 0x3000010 (event 1098+0) = 61
done 1108 0.1 ring.shared ring:ring_put:25: load i32 at 0x1000010 (ring:@ring+16) = 9
done 1109 0.1 ring.shared ring:ring_put:28: store i8 61 at 0x1000009 (ring:@ring+9)
done 1110 0.1 ring.shared ring:ring_put:29: load i32 at 0x1000010 (ring:@ring+16) = 9
done 1111 0.1 ring.shared ring:ring_put:32: store i32 10 at 0x1000010 (ring:@ring+16)
done 1112 0.1 ring.shared ring:ring_put:33: store i32 0 at 0x300000c (event 1097+0)
done 1113 0.1 ring.shared ring:ring_put:37: load i32 at 0x300000c (event 1097+0) = 0
done 1114 0.1 ring.shared ring:ring_put:38: leaves 5 at 0x300000c
done 1115 0.1 ring.shared ring:ring_take:58: alloca 4 at 0x300000c
done 1116 0.1 ring.shared ring:ring_take:59: alloca 1 at 0x3000010
done 1117 0.1 ring.shared ring:used:43: alloca 8 at 0x3000018
done 1118 0.1 ring.shared ring:used:44: store i64 0x1000000 at 0x3000018 (event 1117+0)
done 1119 0.1 ring.shared ring:used:45: load i64 at 0x3000018 (event 1117+0) = 0x1000000
done 1120 0.1 ring.shared ring:used:47: load i32 at 0x1000010 (ring:@ring+16) = 10
done 1121 0.1 ring.shared ring:used:48: load i64 at 0x3000018 (event 1117+0) = 0x1000000
done 1122 0.1 ring.shared ring:used:50: load i32 at 0x1000014 (ring:@ring+20) = 9
done 1123 0.1 ring.shared ring:used:53: leaves 15 at 0x3000011
done 1124 0.1 ring.shared ring:ring_take:69: load i32 at 0x1000014 (ring:@ring+20) = 9
done 1125 0.1 ring.shared ring:ring_take:72: load i8 at 0x1000009 (ring:@ring+9) = 61
done 1126 0.1 ring.shared ring:ring_take:73: store i8 61 at 0x3000010 (event 1116+0)
done 1127 0.1 ring.shared ring:ring_take:74: load i32 at 0x1000014 (ring:@ring+20) = 9
done 1128 0.1 ring.shared ring:ring_take:77: store i32 10 at 0x1000014 (ring:@ring+20)
done 1129 0.1 ring.shared ring:ring_take:78: load i8 at 0x3000010 (event 1116+0) = 61
done 1130 0.1 ring.shared ring:ring_take:80: store i32 61 at 0x300000c (event 1115+0)
done 1131 0.1 ring.shared ring:ring_take:84: load i32 at 0x300000c (event 1115+0) = 61
done 1132 0.1 ring.shared ring:ring_take:85: leaves 5 at 0x300000c
done 1133 0.1 ring.shared ring:ring_sum:111: load i32 at 0x3000004 (event 229+0) = 590
done 1134 0.1 ring.shared ring:ring_sum:113: store i32 651 at 0x3000004 (event 229+0)
done 1135 0.1 ring.shared ring:ring_sum:117: load i32 at 0x3000008 (event 230+0) = 20
done 1136 0.1 ring.shared ring:ring_sum:119: store i32 21 at 0x3000008 (event 230+0)
done 1137 0.1 ring.shared ring:ring_sum:99: load i32 at 0x3000008 (event 230+0) = 21
done 1138 0.1 ring.shared ring:ring_sum:100: load i32 at 0x3000000 (event 228+0) = 40
done 1139 0.1 ring.shared ring:ring_sum:105: load i32 at 0x3000008 (event 230+0) = 21
done 1140 0.1 ring.shared ring:ring_put:12: alloca 4 at 0x300000c
done 1141 0.1 ring.shared ring:ring_put:13: alloca 1 at 0x3000010
done 1142 0.1 ring.shared ring:ring_put:14: store i8 64 at 0x3000010 (event 1141+0)
done 1143 0.1 ring.shared ring:used:43: alloca 8 at 0x3000018
done 1144 0.1 ring.shared ring:used:44: store i64 0x1000000 at 0x3000018 (event 1143+0)
done 1145 0.1 ring.shared ring:used:45: load i64 at 0x3000018 (event 1143+0) = 0x1000000
done 1146 0.1 ring.shared ring:used:47: load i32 at 0x1000010 (ring:@ring+16) = 10
done 1147 0.1 ring.shared ring:used:48: load i64 at 0x3000018 (event 1143+0) = 0x1000000
done 1148 0.1 ring.shared ring:used:50: load i32 at 0x1000014 (ring:@ring+20) = 10
done 1149 0.1 ring.shared ring:used:53: leaves 15 at 0x3000011
done 1150 0.1 ring.shared ring:ring_put:24: load i8 at 0x3000010 (event 1141+0) = 64
done 1151 0.1 ring.shared ring:ring_put:25: load i32 at 0x1000010 (ring:@ring+16) = 10
done 1152 0.1 ring.shared ring:ring_put:28: store i8 64 at 0x100000a (ring:@ring+10)
done 1153 0.1 ring.shared ring:ring_put:29: load i32 at 0x1000010 (ring:@ring+16) = 10
done 1154 0.1 ring.shared ring:ring_put:32: store i32 11 at 0x1000010 (ring:@ring+16)
done 1155 0.1 ring.shared ring:ring_put:33: store i32 0 at 0x300000c (event 1140+0)
done 1156 0.1 ring.shared ring:ring_put:37: load i32 at 0x300000c (event 1140+0) = 0
done 1157 0.1 ring.shared ring:ring_put:38: leaves 5 at 0x300000c
done 1158 0.1 ring.shared ring:ring_take:58: alloca 4 at 0x300000c
done 1159 0.1 ring.shared ring:ring_take:59: alloca 1 at 0x3000010
done 1160 0.1 ring.shared ring:used:43: alloca 8 at 0x3000018
done 1161 0.1 ring.shared ring:used:44: store i64 0x1000000 at 0x3000018 (event 1160+0)
done 1162 0.1 ring.shared ring:used:45: load i64 at 0x3000018 (event 1160+0) = 0x1000000
done 1163 0.1 ring.shared ring:used:47: load i32 at 0x1000010 (ring:@ring+16) = 11
done 1164 0.1 ring.shared ring:used:48: load i64 at 0x3000018 (event 1160+0) = 0x1000000
done 1165 0.1 ring.shared ring:used:50: load i32 at 0x1000014 (ring:@ring+20) = 10
done 1166 0.1 ring.shared ring:used:53: leaves 15 at 0x3000011
done 1167 0.1 ring.shared ring:ring_take:69: load i32 at 0x1000014 (ring:@ring+20) = 10
done 1168 0.1 ring.shared ring:ring_take:72: load i8 at 0x100000a (ring:@ring+10) = 64
done 1169 0.1 ring.shared ring:ring_take:73: store i8 64 at 0x3000010 (event 1159+0)
done 1170 0.1 ring.shared ring:ring_take:74: load i32 at 0x1000014 (ring:@ring+20) = 10
done 1171 0.1 ring.shared ring:ring_take:77: store i32 11 at 0x1000014 (ring:@ring+20)
done 1172 0.1 ring.shared ring:ring_take:78: load i8 at 0x3000010 (event 1159+0) = 64
done 1173 0.1 ring.shared ring:ring_take:80: store i32 64 at 0x300000c (event 1158+0)
done 1174 0.1 ring.shared ring:ring_take:84: load i32 at 0x300000c (event 1158+0) = 64
done 1175 0.1 ring.shared ring:ring_take:85: leaves 5 at 0x300000c
done 1176 0.1 ring.shared ring:ring_sum:111: load i32 at 0x3000004 (event 229+0) = 651
done 1177 0.1 ring.shared ring:ring_sum:113: store i32 715 at 0x3000004 (event 229+0)
done 1178 0.1 ring.shared ring:ring_sum:117: load i32 at 0x3000008 (event 230+0) = 21
done 1179 0.1 ring.shared ring:ring_sum:119: store i32 22 at 0x3000008 (event 230+0)
done 1180 0.1 ring.shared ring:ring_sum:99: load i32 at 0x3000008 (event 230+0) = 22
done 1181 0.1 ring.shared ring:ring_sum:100: load i32 at 0x3000000 (event 228+0) = 40
done 1182 0.1 ring.shared ring:ring_sum:105: load i32 at 0x3000008 (event 230+0) = 22
done 1183 0.1 ring.shared ring:ring_put:12: alloca 4 at 0x300000c
done 1184 0.1 ring.shared ring:ring_put:13: alloca 1 at 0x3000010
done 1185 0.1 ring.shared ring:ring_put:14: store i8 67 at 0x3000010 (event 1184+0)
done 1186 0.1 ring.shared ring:used:43: alloca 8 at 0x3000018
done 1187 0.1 ring.shared ring:used:44: store i64 0x1000000 at 0x3000018 (event 1186+0)
done 1188 0.1 ring.shared ring:used:45: load i64 at 0x3000018 (event 1186+0) = 0x1000000
done 1189 0.1 ring.shared ring:used:47: load i32 at 0x1000010 (ring:@ring+16) = 11
done 1190 0.1 ring.shared ring:used:48: load i64 at 0x3000018 (event 1186+0) = 0x1000000
done 1191 0.1 ring.shared ring:used:50: load i32 at 0x1000014 (ring:@ring+20) = 11
done 1192 0.1 ring.shared ring:used:53: leaves 15 at 0x3000011
done 1193 0.1 ring.shared ring:ring_put:24: load i8 at 0x3000010 (event 1184+0) = 67
done 1194 0.1 ring.shared ring:ring_put:25: load i32 at 0x1000010 (ring:@ring+16) = 11
done 1195 0.1 ring.shared ring:ring_put:28: store i8 67 at 0x100000b (ring:@ring+11)
done 1196 0.1 ring.shared ring:ring_put:29: load i32 at 0x1000010 (ring:@ring+16) = 11
done 1197 0.1 ring.shared ring:ring_put:32: store i32 12 at 0x1000010 (ring:@ring+16)
done 1198 0.1 ring.shared ring:ring_put:33: store i32 0 at 0x300000c (event 1183+0)
done 1199 0.1 ring.shared ring:ring_put:37: load i32 at 0x300000c (event 1183+0) = 0
done 1200 0.1 ring.shared ring:ring_put:38: leaves 5 at 0x300000c
done 1201 0.1 ring.shared ring:ring_take:58: alloca 4 at 0x300000c
done 1202 0.1 ring.shared ring:ring_take:59: alloca 1 at 0x3000010
done 1203 0.1 ring.shared ring:used:43: alloca 8 at 0x3000018
done 1204 0.1 ring.shared ring:used:44: store i64 0x1000000 at 0x3000018 (event 1203+0)
done 1205 0.1 ring.shared ring:used:45: load i64 at 0x3000018 (event 1203+0) = 0x1000000
done 1206 0.1 ring.shared ring:used:47: load i32 at 0x1000010 (ring:@ring+16) = 12
done 1207 0.1 ring.shared ring:used:48: load i64 at 0x3000018 (event 1203+0) = 0x1000000
done 1208 0.1 ring.shared ring:used:50: load i32 at 0x1000014 (ring:@ring+20) = 11
done 1209 0.1 ring.shared ring:used:53: leaves 15 at 0x3000011
done 1210 0.1 ring.shared ring:ring_take:69: load i32 at 0x1000014 (ring:@ring+20) = 11
done 1211 0.1 ring.shared ring:ring_take:72: load i8 at 0x100000b (ring:@ring+11) = 67
done 1212 0.1 ring.shared ring:ring_take:73: store i8 67 at 0x3000010 (event 1202+0)
done 1213 0.1 ring.shared ring:ring_take:74: load i32 at 0x1000014 (ring:@ring+20) = 11
done 1214 0.1 ring.shared ring:ring_take:77: store i32 12 at 0x1000014 (ring:@ring+20)
done 1215 0.1 ring.shared ring:ring_take:78: load i8 at 0x3000010 (event 1202+0) = 67
done 1216 0.1 ring.shared ring:ring_take:80: store i32 67 at 0x300000c (event 1201+0)
done 1217 0.1 ring.shared ring:ring_take:84: load i32 at 0x300000c (event 1201+0) = 67
done 1218 0.1 ring.shared ring:ring_take:85: leaves 5 at 0x300000c
done 1219 0.1 ring.shared ring:ring_sum:111: load i32 at 0x3000004 (event 229+0) = 715
done 1220 0.1 ring.shared ring:ring_sum:113: store i32 782 at 0x3000004 (event 229+0)
done 1221 0.1 ring.shared ring:ring_sum:117: load i32 at 0x3000008 (event 230+0) = 22
done 1222 0.1 ring.shared ring:ring_sum:119: store i32 23 at 0x3000008 (event 230+0)
done 1223 0.1 ring.shared ring:ring_sum:99: load i32 at 0x3000008 (event 230+0) = 23
done 1224 0.1 ring.shared ring:ring_sum:100: load i32 at 0x3000000 (event 228+0) = 40
done 1225 0.1 ring.shared ring:ring_sum:105: load i32 at 0x3000008 (event 230+0) = 23
done 1226 0.1 ring.shared ring:ring_put:12: alloca 4 at 0x300000c
done 1227 0.1 ring.shared ring:ring_put:13: alloca 1 at 0x3000010
done 1228 0.1 ring.shared ring:ring_put:14: store i8 70 at 0x3000010 (event 1227+0)
done 1229 0.1 ring.shared ring:used:43: alloca 8 at 0x3000018
done 1230 0.1 ring.shared ring:used:44: store i64 0x1000000 at 0x3000018 (event 1229+0)
done 1231 0.1 ring.shared ring:used:45: load i64 at 0x3000018 (event 1229+0) = 0x1000000
done 1232 0.1 ring.shared ring:used:47: load i32 at 0x1000010 (ring:@ring+16) = 12
done 1233 0.1 ring.shared ring:used:48: load i64 at 0x3000018 (event 1229+0) = 0x1000000
done 1234 0.1 ring.shared ring:used:50: load i32 at 0x1000014 (ring:@ring+20) = 12
done 1235 0.1 ring.shared ring:used:53: leaves 15 at 0x3000011
done 1236 0.1 ring.shared ring:ring_put:24: load i8 at 0x3000010 (event 1227+0) = 70
done 1237 0.1 ring.shared ring:ring_put:25: load i32 at 0x1000010 (ring:@ring+16) = 12
done 1238 0.1 ring.shared ring:ring_put:28: store i8 70 at 0x100000c (ring:@ring+12)
done 1239 0.1 ring.shared ring:ring_put:29: load i32 at 0x1000010 (ring:@ring+16) = 12
done 1240 0.1 ring.shared ring:ring_put:32: store i32 13 at 0x1000010 (ring:@ring+16)
done 1241 0.1 ring.shared ring:ring_put:33: store i32 0 at 0x300000c (event 1226+0)
done 1242 0.1 ring.shared ring:ring_put:37: load i32 at 0x300000c (event 1226+0) = 0
done 1243 0.1 ring.shared ring:ring_put:38: leaves 5 at 0x300000c
done 1244 0.1 ring.shared ring:ring_take:58: alloca 4 at 0x300000c
done 1245 0.1 ring.shared ring:ring_take:59: alloca 1 at 0x3000010
done 1246 0.1 ring.shared ring:used:43: alloca 8 at 0x3000018
done 1247 0.1 ring.shared ring:used:44: store i64 0x1000000 at 0x3000018 (event 1246+0)
done 1248 0.1 ring.shared ring:used:45: load i64 at 0x3000018 (event 1246+0) = 0x1000000
done 1249 0.1 ring.shared ring:used:47: load i32 at 0x1000010 (ring:@ring+16) = 13
done 1250 0.1 ring.shared ring:used:48: load i64 at 0x3000018 (event 1246+0) = 0x1000000
done 1251 0.1 ring.shared ring:used:50: load i32 at 0x1000014 (ring:@ring+20) = 12
done 1252 0.1 ring.shared ring:used:53: leaves 15 at 0x3000011
done 1253 0.1 ring.shared ring:ring_take:69: load i32 at 0x1000014 (ring:@ring+20) = 12
done 1254 0.1 ring.shared ring:ring_take:72: load i8 at 0x100000c (ring:@ring+12) = 70
done 1255 0.1 ring.shared ring:ring_take:73: store i8 70 at 0x3000010 (event 1245+0)
done 1256 0.1 ring.shared ring:ring_take:74: load i32 at 0x1000014 (ring:@ring+20) = 12
done 1257 0.1 ring.shared ring:ring_take:77: store i32 13 at 0x1000014 (ring:@ring+20)
done 1258 0.1 ring.shared ring:ring_take:78: load i8 at 0x3000010 (event 1245+0) = 70
done 1259 0.1 ring.shared ring:ring_take:80: store i32 70 at 0x300000c (event 1244+0)
done 1260 0.1 ring.shared ring:ring_take:84: load i32 at 0x300000c (event 1244+0) = 70
done 1261 0.1 ring.shared ring:ring_take:85: leaves 5 at 0x300000c
done 1262 0.1 ring.shared ring:ring_sum:111: load i32 at 0x3000004 (event 229+0) = 782
done 1263 0.1 ring.shared ring:ring_sum:113: store i32 852 at 0x3000004 (event 229+0)
done 1264 0.1 ring.shared ring:ring_sum:117: load i32 at 0x3000008 (event 230+0) = 23
done 1265 0.1 ring.shared ring:ring_sum:119: store i32 24 at 0x3000008 (event 230+0)
done 1266 0.1 ring.shared ring:ring_sum:99: load i32 at 0x3000008 (event 230+0) = 24
done 1267 0.1 ring.shared ring:ring_sum:100: load i32 at 0x3000000 (event 228+0) = 40
done 1268 0.1 ring.shared ring:ring_sum:105: load i32 at 0x3000008 (event 230+0) = 24
done 1269 0.1 ring.shared ring:ring_put:12: alloca 4 at 0x300000c
done 1270 0.1 ring.shared ring:ring_put:13: alloca 1 at 0x3000010
done 1271 0.1 ring.shared ring:ring_put:14: store i8 73 at 0x3000010 (event 1270+0)
done 1272 0.1 ring.shared ring:used:43: alloca 8 at 0x3000018
done 1273 0.1 ring.shared ring:used:44: store i64 0x1000000 at 0x3000018 (event 1272+0)
done 1274 0.1 ring.shared ring:used:45: load i64 at 0x3000018 (event 1272+0) = 0x1000000
done 1275 0.1 ring.shared ring:used:47: load i32 at 0x1000010 (ring:@ring+16) = 13
done 1276 0.1 ring.shared ring:used:48: load i64 at 0x3000018 (event 1272+0) = 0x1000000
done 1277 0.1 ring.shared ring:used:50: load i32 at 0x1000014 (ring:@ring+20) = 13
done 1278 0.1 ring.shared ring:used:53: leaves 15 at 0x3000011
done 1279 0.1 ring.shared ring:ring_put:24: load i8 at 0x3000010 (event 1270+0) = 73
done 1280 0.1 ring.shared ring:ring_put:25: load i32 at 0x1000010 (ring:@ring+16) = 13
done 1281 0.1 ring.shared ring:ring_put:28: store i8 73 at 0x100000d (ring:@ring+13)
done 1282 0.1 ring.shared ring:ring_put:29: load i32 at 0x1000010 (ring:@ring+16) = 13
done 1283 0.1 ring.shared ring:ring_put:32: store i32 14 at 0x1000010 (ring:@ring+16)
done 1284 0.1 ring.shared ring:ring_put:33: store i32 0 at 0x300000c (event 1269+0)
done 1285 0.1 ring.shared ring:ring_put:37: load i32 at 0x300000c (event 1269+0) = 0
done 1286 0.1 ring.shared ring:ring_put:38: leaves 5 at 0x300000c
done 1287 0.1 ring.shared ring:ring_take:58: alloca 4 at 0x300000c
done 1288 0.1 ring.shared ring:ring_take:59: alloca 1 at 0x3000010
done 1289 0.1 ring.shared ring:used:43: alloca 8 at 0x3000018
done 1290 0.1 ring.shared ring:used:44: store i64 0x1000000 at 0x3000018 (event 1289+0)
done 1291 0.1 ring.shared ring:used:45: load i64 at 0x3000018 (event 1289+0) = 0x1000000
done 1292 0.1 ring.shared ring:used:47: load i32 at 0x1000010 (ring:@ring+16) = 14
done 1293 0.1 ring.shared ring:used:48: load i64 at 0x3000018 (event 1289+0) = 0x1000000
done 1294 0.1 ring.shared ring:used:50: load i32 at 0x1000014 (ring:@ring+20) = 13
done 1295 0.1 ring.shared ring:used:53: leaves 15 at 0x3000011
done 1296 0.1 ring.shared ring:ring_take:69: load i32 at 0x1000014 (ring:@ring+20) = 13
done 1297 0.1 ring.shared ring:ring_take:72: load i8 at 0x100000d (ring:@ring+13) = 73
done 1298 0.1 ring.shared ring:ring_take:73: store i8 73 at 0x3000010 (event 1288+0)
done 1299 0.1 ring.shared ring:ring_take:74: load i32 at 0x1000014 (ring:@ring+20) = 13
done 1300 0.1 ring.shared ring:ring_take:77: store i32 14 at 0x1000014 (ring:@ring+20)
done 1301 0.1 ring.shared ring:ring_take:78: load i8 at 0x3000010 (event 1288+0) = 73
done 1302 0.1 ring.shared ring:ring_take:80: store i32 73 at 0x300000c (event 1287+0)
done 1303 0.1 ring.shared ring:ring_take:84: load i32 at 0x300000c (event 1287+0) = 73
done 1304 0.1 ring.shared ring:ring_take:85: leaves 5 at 0x300000c
done 1305 0.1 ring.shared ring:ring_sum:111: load i32 at 0x3000004 (event 229+0) = 852
done 1306 0.1 ring.shared ring:ring_sum:113: store i32 925 at 0x3000004 (event 229+0)
done 1307 0.1 ring.shared ring:ring_sum:117: load i32 at 0x3000008 (event 230+0) = 24
done 1308 0.1 ring.shared ring:ring_sum:119: store i32 25 at 0x3000008 (event 230+0)
done 1309 0.1 ring.shared ring:ring_sum:99: load i32 at 0x3000008 (event 230+0) = 25
done 1310 0.1 ring.shared ring:ring_sum:100: load i32 at 0x3000000 (event 228+0) = 40
done 1311 0.1 ring.shared ring:ring_sum:105: load i32 at 0x3000008 (event 230+0) = 25
done 1312 0.1 ring.shared ring:ring_put:12: alloca 4 at 0x300000c
done 1313 0.1 ring.shared ring:ring_put:13: alloca 1 at 0x3000010
done 1314 0.1 ring.shared ring:ring_put:14: store i8 76 at 0x3000010 (event 1313+0)
done 1315 0.1 ring.shared ring:used:43: alloca 8 at 0x3000018
done 1316 0.1 ring.shared ring:used:44: store i64 0x1000000 at 0x3000018 (event 1315+0)
done 1317 0.1 ring.shared ring:used:45: load i64 at 0x3000018 (event 1315+0) = 0x1000000
done 1318 0.1 ring.shared ring:used:47: load i32 at 0x1000010 (ring:@ring+16) = 14
done 1319 0.1 ring.shared ring:used:48: load i64 at 0x3000018 (event 1315+0) = 0x1000000
done 1320 0.1 ring.shared ring:used:50: load i32 at 0x1000014 (ring:@ring+20) = 14
done 1321 0.1 ring.shared ring:used:53: leaves 15 at 0x3000011
done 1322 0.1 ring.shared ring:ring_put:24: load i8 at 0x3000010 (event 1313+0) = 76
done 1323 0.1 ring.shared ring:ring_put:25: load i32 at 0x1000010 (ring:@ring+16) = 14
done 1324 0.1 ring.shared ring:ring_put:28: store i8 76 at 0x100000e (ring:@ring+14)
done 1325 0.1 ring.shared ring:ring_put:29: load i32 at 0x1000010 (ring:@ring+16) = 14
done 1326 0.1 ring.shared ring:ring_put:32: store i32 15 at 0x1000010 (ring:@ring+16)
done 1327 0.1 ring.shared ring:ring_put:33: store i32 0 at 0x300000c (event 1312+0)
done 1328 0.1 ring.shared ring:ring_put:37: load i32 at 0x300000c (event 1312+0) = 0
done 1329 0.1 ring.shared ring:ring_put:38: leaves 5 at 0x300000c
done 1330 0.1 ring.shared ring:ring_take:58: alloca 4 at 0x300000c
done 1331 0.1 ring.shared ring:ring_take:59: alloca 1 at 0x3000010
done 1332 0.1 ring.shared ring:used:43: alloca 8 at 0x3000018
done 1333 0.1 ring.shared ring:used:44: store i64 0x1000000 at 0x3000018 (event 1332+0)
done 1334 0.1 ring.shared ring:used:45: load i64 at 0x3000018 (event 1332+0) = 0x1000000
done 1335 0.1 ring.shared ring:used:47: load i32 at 0x1000010 (ring:@ring+16) = 15
done 1336 0.1 ring.shared ring:used:48: load i64 at 0x3000018 (event 1332+0) = 0x1000000
done 1337 0.1 ring.shared ring:used:50: load i32 at 0x1000014 (ring:@ring+20) = 14
done 1338 0.1 ring.shared ring:used:53: leaves 15 at 0x3000011
done 1339 0.1 ring.shared ring:ring_take:69: load i32 at 0x1000014 (ring:@ring+20) = 14
done 1340 0.1 ring.shared ring:ring_take:72: load i8 at 0x100000e (ring:@ring+14) = 76
done 1341 0.1 ring.shared ring:ring_take:73: store i8 76 at 0x3000010 (event 1331+0)
done 1342 0.1 ring.shared ring:ring_take:74: load i32 at 0x1000014 (ring:@ring+20) = 14
done 1343 0.1 ring.shared ring:ring_take:77: store i32 15 at 0x1000014 (ring:@ring+20)
done 1344 0.1 ring.shared ring:ring_take:78: load i8 at 0x3000010 (event 1331+0) = 76
done 1345 0.1 ring.shared ring:ring_take:80: store i32 76 at 0x300000c (event 1330+0)
done 1346 0.1 ring.shared ring:ring_take:84: load i32 at 0x300000c (event 1330+0) = 76
done 1347 0.1 ring.shared ring:ring_take:85: leaves 5 at 0x300000c
done 1348 0.1 ring.shared ring:ring_sum:111: load i32 at 0x3000004 (event 229+0) = 925
done 1349 0.1 ring.shared ring:ring_sum:113: store i32 1001 at 0x3000004 (event 229+0)
done 1350 0.1 ring.shared ring:ring_sum:117: load i32 at 0x3000008 (event 230+0) = 25
done 1351 0.1 ring.shared ring:ring_sum:119: store i32 26 at 0x3000008 (event 230+0)
done 1352 0.1 ring.shared ring:ring_sum:99: load i32 at 0x3000008 (event 230+0) = 26
done 1353 0.1 ring.shared ring:ring_sum:100: load i32 at 0x3000000 (event 228+0) = 40
done 1354 0.1 ring.shared ring:ring_sum:105: load i32 at 0x3000008 (event 230+0) = 26
done 1355 0.1 ring.shared ring:ring_put:12: alloca 4 at 0x300000c
done 1356 0.1 ring.shared ring:ring_put:13: alloca 1 at 0x3000010
done 1357 0.1 ring.shared ring:ring_put:14: store i8 79 at 0x3000010 (event 1356+0)
done 1358 0.1 ring.shared ring:used:43: alloca 8 at 0x3000018
done 1359 0.1 ring.shared ring:used:44: store i64 0x1000000 at 0x3000018 (event 1358+0)
done 1360 0.1 ring.shared ring:used:45: load i64 at 0x3000018 (event 1358+0) = 0x1000000
done 1361 0.1 ring.shared ring:used:47: load i32 at 0x1000010 (ring:@ring+16) = 15
done 1362 0.1 ring.shared ring:used:48: load i64 at 0x3000018 (event 1358+0) = 0x1000000
done 1363 0.1 ring.shared ring:used:50: load i32 at 0x1000014 (ring:@ring+20) = 15
done 1364 0.1 ring.shared ring:used:53: leaves 15 at 0x3000011
done 1365 0.1 ring.shared ring:ring_put:24: load i8 at 0x3000010 (event 1356+0) = 79
done 1366 0.1 ring.shared ring:ring_put:25: load i32 at 0x1000010 (ring:@ring+16) = 15
done 1367 0.1 ring.shared ring:ring_put:28: store i8 79 at 0x100000f (ring:@ring+15)
done 1368 0.1 ring.shared ring:ring_put:29: load i32 at 0x1000010 (ring:@ring+16) = 15
done 1369 0.1 ring.shared ring:ring_put:32: store i32 0 at 0x1000010 (ring:@ring+16)
done 1370 0.1 ring.shared ring:ring_put:33: store i32 0 at 0x300000c (event 1355+0)
done 1371 0.1 ring.shared ring:ring_put:37: load i32 at 0x300000c (event 1355+0) = 0
done 1372 0.1 ring.shared ring:ring_put:38: leaves 5 at 0x300000c
done 1373 0.1 ring.shared ring:ring_take:58: alloca 4 at 0x300000c
done 1374 0.1 ring.shared ring:ring_take:59: alloca 1 at 0x3000010
done 1375 0.1 ring.shared ring:used:43: alloca 8 at 0x3000018
done 1376 0.1 ring.shared ring:used:44: store i64 0x1000000 at 0x3000018 (event 1375+0)
done 1377 0.1 ring.shared ring:used:45: load i64 at 0x3000018 (event 1375+0) = 0x1000000
done 1378 0.1 ring.shared ring:used:47: load i32 at 0x1000010 (ring:@ring+16) = 0
done 1379 0.1 ring.shared ring:used:48: load i64 at 0x3000018 (event 1375+0) = 0x1000000
done 1380 0.1 ring.shared ring:used:50: load i32 at 0x1000014 (ring:@ring+20) = 15
done 1381 0.1 ring.shared ring:used:53: leaves 15 at 0x3000011
done 1382 0.1 ring.shared ring:ring_take:69: load i32 at 0x1000014 (ring:@ring+20) = 15
done 1383 0.1 ring.shared ring:ring_take:72: load i8 at 0x100000f (ring:@ring+15) = 79
done 1384 0.1 ring.shared ring:ring_take:73: store i8 79 at 0x3000010 (event 1374+0)
done 1385 0.1 ring.shared ring:ring_take:74: load i32 at 0x1000014 (ring:@ring+20) = 15
done 1386 0.1 ring.shared ring:ring_take:77: store i32 0 at 0x1000014 (ring:@ring+20)
done 1387 0.1 ring.shared ring:ring_take:78: load i8 at 0x3000010 (event 1374+0) = 79
done 1388 0.1 ring.shared ring:ring_take:80: store i32 79 at 0x300000c (event 1373+0)
done 1389 0.1 ring.shared ring:ring_take:84: load i32 at 0x300000c (event 1373+0) = 79
done 1390 0.1 ring.shared ring:ring_take:85: leaves 5 at 0x300000c
done 1391 0.1 ring.shared ring:ring_sum:111: load i32 at 0x3000004 (event 229+0) = 1001
done 1392 0.1 ring.shared ring:ring_sum:113: store i32 1080 at 0x3000004 (event 229+0)
done 1393 0.1 ring.shared ring:ring_sum:117: load i32 at 0x3000008 (event 230+0) = 26
done 1394 0.1 ring.shared ring:ring_sum:119: store i32 27 at 0x3000008 (event 230+0)
done 1395 0.1 ring.shared ring:ring_sum:99: load i32 at 0x3000008 (event 230+0) = 27
done 1396 0.1 ring.shared ring:ring_sum:100: load i32 at 0x3000000 (event 228+0) = 40
done 1397 0.1 ring.shared ring:ring_sum:105: load i32 at 0x3000008 (event 230+0) = 27
done 1398 0.1 ring.shared ring:ring_put:12: alloca 4 at 0x300000c
done 1399 0.1 ring.shared ring:ring_put:13: alloca 1 at 0x3000010
done 1400 0.1 ring.shared ring:ring_put:14: store i8 82 at 0x3000010 (event 1399+0)
done 1401 0.1 ring.shared ring:used:43: alloca 8 at 0x3000018
done 1402 0.1 ring.shared ring:used:44: store i64 0x1000000 at 0x3000018 (event 1401+0)
done 1403 0.1 ring.shared ring:used:45: load i64 at 0x3000018 (event 1401+0) = 0x1000000
done 1404 0.1 ring.shared ring:used:47: load i32 at 0x1000010 (ring:@ring+16) = 0
done 1405 0.1 ring.shared ring:used:48: load i64 at 0x3000018 (event 1401+0) = 0x1000000
done 1406 0.1 ring.shared ring:used:50: load i32 at 0x1000014 (ring:@ring+20) = 0
done 1407 0.1 ring.shared ring:used:53: leaves 15 at 0x3000011
done 1408 0.1 ring.shared ring:ring_put:24: load i8 at 0x3000010 (event 1399+0) = 82
done 1409 0.1 ring.shared ring:ring_put:25: load i32 at 0x1000010 (ring:@ring+16) = 0
done 1410 0.1 ring.shared ring:ring_put:28: store i8 82 at 0x1000000 (ring:@ring+0)
done 1411 0.1 ring.shared ring:ring_put:29: load i32 at 0x1000010 (ring:@ring+16) = 0
done 1412 0.1 ring.shared ring:ring_put:32: store i32 1 at 0x1000010 (ring:@ring+16)
done 1413 0.1 ring.shared ring:ring_put:33: store i32 0 at 0x300000c (event 1398+0)
done 1414 0.1 ring.shared ring:ring_put:37: load i32 at 0x300000c (event 1398+0) = 0
done 1415 0.1 ring.shared ring:ring_put:38: leaves 5 at 0x300000c
done 1416 0.1 ring.shared ring:ring_take:58: alloca 4 at 0x300000c
done 1417 0.1 ring.shared ring:ring_take:59: alloca 1 at 0x3000010
done 1418 0.1 ring.shared ring:used:43: alloca 8 at 0x3000018
done 1419 0.1 ring.shared ring:used:44: store i64 0x1000000 at 0x3000018 (event 1418+0)
done 1420 0.1 ring.shared ring:used:45: load i64 at 0x3000018 (event 1418+0) = 0x1000000
done 1421 0.1 ring.shared ring:used:47: load i32 at 0x1000010 (ring:@ring+16) = 1
done 1422 0.1 ring.shared ring:used:48: load i64 at 0x3000018 (event 1418+0) = 0x1000000
done 1423 0.1 ring.shared ring:used:50: load i32 at 0x1000014 (ring:@ring+20) = 0
done 1424 0.1 ring.shared ring:used:53: leaves 15 at 0x3000011
done 1425 0.1 ring.shared ring:ring_take:69: load i32 at 0x1000014 (ring:@ring+20) = 0
done 1426 0.1 ring.shared ring:ring_take:72: load i8 at 0x1000000 (ring:@ring+0) = 82
done 1427 0.1 ring.shared ring:ring_take:73: store i8 82 at 0x3000010 (event 1417+0)
done 1428 0.1 ring.shared ring:ring_take:74: load i32 at 0x1000014 (ring:@ring+20) = 0
done 1429 0.1 ring.shared ring:ring_take:77: store i32 1 at 0x1000014 (ring:@ring+20)
done 1430 0.1 ring.shared ring:ring_take:78: load i8 at 0x3000010 (event 1417+0) = 82
done 1431 0.1 ring.shared ring:ring_take:80: store i32 82 at 0x300000c (event 1416+0)
done 1432 0.1 ring.shared ring:ring_take:84: load i32 at 0x300000c (event 1416+0) = 82
done 1433 0.1 ring.shared ring:ring_take:85: leaves 5 at 0x300000c
done 1434 0.1 ring.shared ring:ring_sum:111: load i32 at 0x3000004 (event 229+0) = 1080
done 1435 0.1 ring.shared ring:ring_sum:113: store i32 1162 at 0x3000004 (event 229+0)
done 1436 0.1 ring.shared ring:ring_sum:117: load i32 at 0x3000008 (event 230+0) = 27
done 1437 0.1 ring.shared ring:ring_sum:119: store i32 28 at 0x3000008 (event 230+0)
done 1438 0.1 ring.shared ring:ring_sum:99: load i32 at 0x3000008 (event 230+0) = 28
done 1439 0.1 ring.shared ring:ring_sum:100: load i32 at 0x3000000 (event 228+0) = 40
done 1440 0.1 ring.shared ring:ring_sum:105: load i32 at 0x3000008 (event 230+0) = 28
done 1441 0.1 ring.shared ring:ring_put:12: alloca 4 at 0x300000c
done 1442 0.1 ring.shared ring:ring_put:13: alloca 1 at 0x3000010
done 1443 0.1 ring.shared ring:ring_put:14: store i8 85 at 0x3000010 (event 1442+0)
done 1444 0.1 ring.shared ring:used:43: alloca 8 at 0x3000018
done 1445 0.1 ring.shared ring:used:44: store i64 0x1000000 at 0x3000018 (event 1444+0)
done 1446 0.1 ring.shared ring:used:45: load i64 at 0x3000018 (event 1444+0) = 0x1000000
done 1447 0.1 ring.shared ring:used:47: load i32 at 0x1000010 (ring:@ring+16) = 1
done 1448 0.1 ring.shared ring:used:48: load i64 at 0x3000018 (event 1444+0) = 0x1000000
done 1449 0.1 ring.shared ring:used:50: load i32 at 0x1000014 (ring:@ring+20) = 1
done 1450 0.1 ring.shared ring:used:53: leaves 15 at 0x3000011
done 1451 0.1 ring.shared ring:ring_put:24: load i8 at 0x3000010 (event 1442+0) = 85
done 1452 0.1 ring.shared ring:ring_put:25: load i32 at 0x1000010 (ring:@ring+16) = 1
done 1453 0.1 ring.shared ring:ring_put:28: store i8 85 at 0x1000001 (ring:@ring+1)
done 1454 0.1 ring.shared ring:ring_put:29: load i32 at 0x1000010 (ring:@ring+16) = 1
done 1455 0.1 ring.shared ring:ring_put:32: store i32 2 at 0x1000010 (ring:@ring+16)
done 1456 0.1 ring.shared ring:ring_put:33: store i32 0 at 0x300000c (event 1441+0)
done 1457 0.1 ring.shared ring:ring_put:37: load i32 at 0x300000c (event 1441+0) = 0
done 1458 0.1 ring.shared ring:ring_put:38: leaves 5 at 0x300000c
done 1459 0.1 ring.shared ring:ring_take:58: alloca 4 at 0x300000c
done 1460 0.1 ring.shared ring:ring_take:59: alloca 1 at 0x3000010
done 1461 0.1 ring.shared ring:used:43: alloca 8 at 0x3000018
done 1462 0.1 ring.shared ring:used:44: store i64 0x1000000 at 0x3000018 (event 1461+0)
done 1463 0.1 ring.shared ring:used:45: load i64 at 0x3000018 (event 1461+0) = 0x1000000
done 1464 0.1 ring.shared ring:used:47: load i32 at 0x1000010 (ring:@ring+16) = 2
done 1465 0.1 ring.shared ring:used:48: load i64 at 0x3000018 (event 1461+0) = 0x1000000
done 1466 0.1 ring.shared ring:used:50: load i32 at 0x1000014 (ring:@ring+20) = 1
done 1467 0.1 ring.shared ring:used:53: leaves 15 at 0x3000011
done 1468 0.1 ring.shared ring:ring_take:69: load i32 at 0x1000014 (ring:@ring+20) = 1
done 1469 0.1 ring.shared ring:ring_take:72: load i8 at 0x1000001 (ring:@ring+1) = 85
done 1470 0.1 ring.shared ring:ring_take:73: store i8 85 at 0x3000010 (event 1460+0)
done 1471 0.1 ring.shared ring:ring_take:74: load i32 at 0x1000014 (ring:@ring+20) = 1
done 1472 0.1 ring.shared ring:ring_take:77: store i32 2 at 0x1000014 (ring:@ring+20)
done 1473 0.1 ring.shared ring:ring_take:78: load i8 at 0x3000010 (event 1460+0) = 85
done 1474 0.1 ring.shared ring:ring_take:80: store i32 85 at 0x300000c (event 1459+0)
done 1475 0.1 ring.shared ring:ring_take:84: load i32 at 0x300000c (event 1459+0) = 85
done 1476 0.1 ring.shared ring:ring_take:85: leaves 5 at 0x300000c
done 1477 0.1 ring.shared ring:ring_sum:111: load i32 at 0x3000004 (event 229+0) = 1162
done 1478 0.1 ring.shared ring:ring_sum:113: store i32 1247 at 0x3000004 (event 229+0)
"#
}
